// What is reached in stored bytes whose contents are sound, together with added edges: sweeps down the children, and between them rounds over the added edges, each of
// which marks the groups that the edges lead to out of marked groups. A group's mark stands at its name.
#![tactic(auto)]

ghost use Rattle.std.specs.Prelude.{◌≡◌, ◌≤◌, ◌<◌, ℕ, length, get_or};
ghost use Rattle.lineage.specs.Calls.{index_in};
ghost use Rattle.stored.specs.Reading.{numbers_of};
ghost use Rattle.reach_rounds.specs.Rounds.{Low, is_marked, leads_out, spread_over, one_led_out, rounds_in};

use reach::sweep_down;
use sound_places::SoundImage;
use stored::reading::Numbers;

// Whether an edge from s to t leads from a marked group into one that is not.
fn leads_out(names: &Numbers, marks: &[u8], s: usize, t: usize) -> bool
    requires spots { (v : ℕ) → v < names.now.len → get_or (numbers_of names.now) v 0 < length marks.now }
    requires s_lt_n { (s < names.now.len) × (t < names.now.len) }
    ensures { result ≡ leads_out (numbers_of names.now) marks.now s t }
{
    let from = names.get(s);
    if marks[from] != 1 {
        return false;
    }
    let to = names.get(t);
    marks[to] != 1
}

// Every added edge from a marked group into an unmarked one marks it; whether there was one.
fn spread(names: &Numbers, marks: &mut [u8], sources: &[u32], targets: &[u32]) -> bool
    requires spots { (v : ℕ) → v < names.now.len → get_or (numbers_of names.now) v 0 < length marks.old }
    requires sources_len { (length sources.now ≡ length targets.now) × (Low names.now.len sources.now × Low names.now.len targets.now) }
    ensures marks_after { marks.new ≡ spread_over (numbers_of names.now) sources.now targets.now marks.old }
    ensures value { result ≡ one_led_out (numbers_of names.now) sources.now targets.now marks.old }
{
    let mut changed = false;
    for i in 0..sources.len() {
        let s = sources[i] as usize;
        let t = targets[i] as usize;
        if leads_out(names, marks, s, t) {
            let to = names.get(t);
            marks[to] = 1;
            changed = true;
        }
    }
    changed
}

// From the groups marked before: a sweep, then rounds over the added edges, each with its sweep, until no edge leads out of the marked groups or the target's group is
// marked; whether it is. Each round marks the target's group of some added edge, so there are no more rounds than added edges.
pub fn reach_over(
    index: &SoundImage,
    sources: &[u32],
    targets: &[u32],
    marks: &mut [u8],
    target: usize,
) -> bool
    requires n_in_bounds { (index.now.image.layout.n ≤ length marks.old) × (target < index.now.image.layout.n) }
    requires sources_len { (length sources.now ≡ length targets.now) × (Low index.now.image.layout.n sources.now × Low index.now.image.layout.n targets.now) }
    ensures marks_after { marks.new ≡ rounds_in (index_in index.now.image.bytes.now) sources.now targets.now target marks.old }
    ensures value { result ≡ is_marked (index_in index.now.image.bytes.now).names marks.new target }
{
    let k = index.image.layout.k;
    let names = Numbers {
        bytes: index.image.names(),
        width: index.image.layout.width,
        len: index.image.layout.n,
    };
    let name = names.get(target);
    for _round in 0..sources.len() {
        sweep_down(index, marks, k);
        if marks[name] == 1 {
            return true;
        }
        if !spread(&names, marks, sources, targets) {
            return false;
        }
    }
    sweep_down(index, marks, k);
    marks[name] == 1
}
