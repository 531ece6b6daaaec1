// The place of a group: where its name stands in the group list, found by halves, since the list rises.
#![tactic(auto)]

ghost use Rattle.std.specs.Prelude.{true, ◌≡◌, ℕ, ◌-◌, ◌*◌, ◌≤◌, ◌<◌, length};
ghost use Rattle.lineage.specs.Lists.{among};
ghost use Rattle.lineage.specs.Graph.{place_of};
ghost use Rattle.lineage.specs.Calls.{index_in};
ghost use Rattle.lineage.specs.Numbers.{Width, numbers};
ghost use Rattle.lineage.specs.Question.{place_in};
ghost use Rattle.lineage.specs.Sound.{contents_sound};
ghost use Rattle.lineage.specs.Stored.{header_at, form_of};
ghost use Rattle.laws.specs.Rising.{Rises};

use numbers::num;
use stored::parts::Image;

// Stored bytes whose contents are sound.
#[derive(Clone, Copy)]
pub struct SoundImage<'a> {
    pub image: Image<'a>,
    ghost contents: { contents_sound (form_of (header_at image.bytes.now 0)) image.bytes.now ≡ true },
}

// The least place that a group of this name can have: of the vertices below its name at most n - k name no group.
fn least_place(n: usize, k: usize, name: usize) -> usize
    requires { k ≤ n }
    ensures { result ≡ name - (n - k) }
{
    let others = n - k;
    if others < name { name - others } else { 0 }
}

// The place of the group of this name: at most the name, since no more names are below it than vertices. Where every vertex is a group of its own it is the name
// itself, and nothing is sought.
pub fn place_of(groups: &[u8], w: usize, n: usize, k: usize, name: usize) -> usize
    requires width { Width w }
    requires k_in_bounds { (w * k ≤ length groups.now) × (k ≤ n) }
    requires rises { Rises (numbers w groups.now k) }
    requires by_index { (y : ℕ) → among y (numbers w groups.now k) ≡ true → y < n }
    requires k_value { among name (numbers w groups.now k) ≡ true }
    ensures { result ≡ place_of (numbers w groups.now k) name }
{
    let least = least_place(n, k, name);
    numbers::count_below(groups, w, k, name, least, name.min(k))
}

impl<'a> SoundImage<'a> {
    // The place of vertex u's group.
    pub fn place(&self, u: usize) -> usize
        requires { u < self.now.image.layout.n }
        ensures { (result ≡ place_in (index_in self.now.image.bytes.now) u) × (result < self.now.image.layout.k) }
    {
        let l = self.image.layout;
        let name = num(self.image.names(), l.width, u);
        place_of(self.image.groups(), l.width, l.n, l.k, name)
    }
}
