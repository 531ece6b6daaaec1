// A question over the sections of a sound index: the six rules, of which the first that holds decides.
ghost use Rattle.std.specs.Prelude.{cond, ◌≡◌, ◌+◌, ◌≤◌, ◌<◌, length};
ghost use Rattle.lineage.specs.Question.{between, answer};
ghost use Rattle.lineage.specs.Stored.{most_labellings};
ghost use Rattle.numbers.specs.Bounds.{vertex_bound};
ghost use Rattle.numbers.specs.Regions.{Kept};
ghost use Rattle.ask_walk.specs.Stamps.{seen_as, Under};
ghost use Rattle.ask_walk.specs.Walks.{index_of_walk};
ghost use Rattle.ask_stacked.specs.Words.{stack_words};
ghost use Rattle.ask.specs.Replies.{answer_by};
ghost use Rattle.ask.specs.Sections.{index_of_sections};

use crate::Asked;
use crate::sections::Sections;
use ask_intervals::Judged;
use ask_walk::Seen;
use ask_walk::towards::Towards;

// A reply under reasons 1 to 4: no group is opened.
fn plain(says: bool, reason: u32, deciding: usize) -> Asked
    requires { deciding ≤ most_labellings }
    ensures { result ≡ record { says = says; reason = reason; deciding = deciding; opened = 0 } }
{
    Asked {
        says,
        reason,
        opened: 0,
        deciding: deciding as u32,
    }
}

// A reply by the walk: reason 5 where it found the target, otherwise 6.
fn by_walk(a: Seen) -> Asked
    requires { (a.deciding ≤ most_labellings) × (a.opened ≤ vertex_bound) }
    ensures { result ≡ record { says = a.found; reason = cond a.found 5 6; deciding = a.deciding; opened = a.opened } }
{
    Asked {
        says: a.found,
        reason: if a.found { 5 } else { 6 },
        opened: a.opened as u32,
        deciding: a.deciding as u32,
    }
}

// The answer between the group at place x and a walk's target. The walk keeps its stack in the lent words, of which only those that it needs are altered.
pub fn decide(walk: &Towards, x: usize, marks: &mut [u8], work: &mut [u32], stamp: u8) -> Asked
    requires marks_long { length marks.old ≡ walk.now.marks }
    requires x_lt_k { (x < walk.now.k) × ((length marks.old ≤ vertex_bound) × (Under stamp marks.old × (stack_words walk.now.width (length marks.old) ≤ length work.old))) }
    ensures marks_after { answer_by result (seen_as stamp marks.new) ≡ between (index_of_walk walk.now) x walk.now.t (seen_as stamp marks.old) }
    ensures under { Under (stamp + 1) marks.new }
    ensures marks_unchanged { result.opened ≡ 0 → marks.new ≡ marks.old }
    ensures kept { Kept work.old work.new 0 (stack_words walk.now.width (length marks.old)) }
{
    let w = walk.width;
    let t = walk.t;
    if x == t {
        return plain(true, 1, 0);
    }
    let level = numbers::num(walk.levels, w, x);
    if level <= numbers::num(walk.levels, w, t) {
        return plain(false, 3, 0);
    }
    match walk.judge(x) {
        Judged::Inside(deciding) => plain(true, 2, deciding),
        Judged::Outside(deciding) => plain(false, 4, deciding),
        Judged::Neither => by_walk(ask_stacked::walk_from(walk, marks, work, level, x, stamp)),
    }
}

// The answer between two vertices; of the marks, one for each vertex, none bears the stamp before, and none a higher one. Where no group is opened, the marks
// stay as they were.
pub fn question(
    sections: &Sections,
    u: usize,
    v: usize,
    marks: &mut [u8],
    work: &mut [u32],
    stamp: u8,
) -> Asked
    requires { (u < sections.now.layout.n) × ((v < sections.now.layout.n) × ((length marks.old ≡ sections.now.layout.n) × (Under stamp marks.old × (stack_words sections.now.layout.width sections.now.layout.n ≤ length work.old)))) }
    ensures marks_after { answer_by result (seen_as stamp marks.new) ≡ answer (index_of_sections sections.now) u v }
    ensures under { Under (stamp + 1) marks.new }
    ensures marks_unchanged { result.opened ≡ 0 → marks.new ≡ marks.old }
    ensures kept { Kept work.old work.new 0 (stack_words sections.now.layout.width sections.now.layout.n) }
{
    let w = sections.layout.width;
    let n = sections.layout.n;
    let k = sections.layout.k;
    let names = sections.names;
    let groups = sections.groups;
    let x = sound_places::place_of(groups, w, n, k, numbers::num(names, w, u));
    let t = sound_places::place_of(groups, w, n, k, numbers::num(names, w, v));
    decide(&sections.towards(t), x, marks, work, stamp)
}
