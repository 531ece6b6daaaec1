// The listed vertices, counted and written: those whose group is marked, and the vertex itself by a rule of its own. A group's mark stands at its name.
ghost use Rattle.std.specs.Prelude.{◌++◌, ◌≡◌, ◌≤◌, ◌<◌, ℕ, length, drop, get_or};
ghost use Rattle.lineage.specs.Question.{in_own_list};
ghost use Rattle.stored.specs.Reading.{numbers_of};
ghost use Rattle.list.specs.Listing.{names_alone};

use stored::reading::Numbers;

// Whether vertex u is in its own list: where its group has more than one vertex. It counts those that have its name.
pub fn in_own_list(names: &Numbers, u: usize) -> bool
    requires { u < names.now.len }
    ensures { result ≡ in_own_list (names_alone (numbers_of names.now)) u }
{
    let name = names.get(u);
    let mut count: usize = 0;
    for v in 0..names.len {
        if names.get(v) == name {
            count += 1;
        }
    }
    1 < count
}

// The list of vertex u: u itself is in it where `own` says so, any other vertex where its group is marked.
#[derive(Clone, Copy)]
pub struct Listing<'a, 'b> {
    pub names: Numbers<'a>,
    pub marks: &'b [u8],
    pub u: usize,
    pub own: bool,
    ghost spots: { (v : ℕ) → v < names.len → get_or (numbers_of names) v 0 < length marks.now },
}

impl<'a, 'b> Listing<'a, 'b> {
    ghost use Rattle.list.specs.Vertices.{lists, vertices_of};

    // Whether vertex v is listed.
    fn is_listed(&self, v: usize) -> bool
        requires { v < self.now.names.len }
        ensures { result ≡ lists self.now v }
    {
        if self.u == v {
            return self.own;
        }
        self.marks[self.names.get(v)] == 1
    }

    // How many vertices are listed.
    pub fn count_listed(&self) -> usize
        ensures { result ≡ length (vertices_of self.now) }
    {
        let mut count = 0;
        for v in 0..self.names.len {
            if self.is_listed(v) {
                count += 1;
            }
        }
        count
    }

    // Writes the listed vertices, rising; what is lent behind them is untouched.
    pub fn write_listed(&self, out: &mut [u32])
        requires { length (vertices_of self.now) ≤ length out.old }
        ensures { out.new ≡ vertices_of self.now ++ drop (length (vertices_of self.now)) out.old }
    {
        let mut at = 0;
        for v in 0..self.names.len {
            if self.is_listed(v) {
                out[at] = v as u32;
                at += 1;
            }
        }
    }
}
