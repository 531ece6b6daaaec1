// Many pairs of vertices, asked one after the other over the sections of a sound index. The place of every vertex's group is laid out once. The marks are not cleared
// between two pairs: each walk marks with a stamp of its own, 1 to 255, and they are cleared where the stamps run out.
#![tactic(auto)]

ghost use Rattle.std.specs.Prelude.{cond, ◌≡◌, [], ◌∷◌, ◌+◌, ◌*◌, ◌≤◌, ◌<◌, length, replicate};
ghost use Rattle.lineage.specs.Question.{between, answer};
ghost use Rattle.numbers.specs.Bounds.{vertex_bound};
ghost use Rattle.numbers.specs.Put.{put};
ghost use Rattle.numbers.specs.Regions.{Kept};
ghost use Rattle.ask_walk.specs.Stamps.{seen_as, Under};
ghost use Rattle.ask_walk.specs.Walks.{index_of_walk};
ghost use Rattle.ask_stacked.specs.Words.{stack_words};
ghost use Rattle.ask.specs.Replies.{answer_by};
ghost use Rattle.ask.specs.Sections.{index_of_sections};
ghost use Rattle.refusals.specs.Refusals.{number_of, extra_of};
ghost use Rattle.ask_pairs.specs.Pairs.{six_refused, sixes, last_marks};
ghost use Rattle.ask_pairs.specs.Places.{table_in, Placed};

use ask::Asked;
use ask::sections::Sections;
use ask_walk::towards::Towards;
use refusals::Refusal;

pub mod places;

const LAST_STAMP: u8 = 255;

// A pair's reply, the stamp that its walk marked with, and the highest stamp that a mark may bear behind it.
#[derive(Clone, Copy, Debug, PartialEq, Eq)]
pub struct Next {
    pub reply: Asked,
    pub stamp: u8,
    pub used: u8,
}

// A stamp above all marks, of which none is above `used`: the next one, or 1 where there is none, and then the marks are cleared.
fn next_stamp(marks: &mut [u8], used: u8) -> u8
    requires { Under (used + 1) marks.old }
    ensures { (0 < result) × (Under result marks.new × (length marks.new ≡ length marks.old)) }
{
    if used == LAST_STAMP {
        marks.fill(0);
        return 1;
    }
    used + 1
}

// The reply between the group at place x and a walk's target, with marks that bear earlier walks' stamps.
fn next_reply(walk: &Towards, x: usize, marks: &mut [u8], work: &mut [u32], used: u8) -> Next
    requires marks_long { length marks.old ≡ walk.now.marks }
    requires x_lt_k { (x < walk.now.k) × ((length marks.old ≤ vertex_bound) × (Under (used + 1) marks.old × (stack_words walk.now.width (length marks.old) ≤ length work.old))) }
    ensures marks_after { answer_by result.reply (seen_as result.stamp marks.new) ≡ between (index_of_walk walk.now) x walk.now.t (replicate (length marks.old) 0) }
    ensures under { Under (result.used + 1) marks.new }
    ensures kept { Kept work.old work.new 0 (stack_words walk.now.width (length marks.old)) }
{
    let stamp = next_stamp(marks, used);
    let reply = ask::question::decide(walk, x, marks, work, stamp);
    Next {
        reply,
        stamp,
        used: if reply.opened == 0 { stamp - 1 } else { stamp },
    }
}

// Writes six numbers from position at on.
fn put_six(
    answers: &mut [u32],
    at: usize,
    refusal: u32,
    extra: u32,
    yes: u32,
    reason: u32,
    opened: u32,
    labelling: u32,
)
    requires { at + 6 ≤ length answers.old }
    ensures { answers.new ≡ put answers.old at (refusal ∷ extra ∷ yes ∷ reason ∷ opened ∷ labelling ∷ []) }
{
    answers[at] = refusal;
    answers[at + 1] = extra;
    answers[at + 2] = yes;
    answers[at + 3] = reason;
    answers[at + 4] = opened;
    answers[at + 5] = labelling;
}

// Writes a refusal as six numbers.
fn put_refused(answers: &mut [u32], at: usize, r: Refusal)
    requires { at + 6 ≤ length answers.old }
    ensures { answers.new ≡ put answers.old at (six_refused (number_of r) (extra_of r)) }
{
    put_six(answers, at, r.number(), r.extra(), 0, 0, 0, 0)
}

// Writes a reply as six numbers.
fn put_reply(answers: &mut [u32], at: usize, r: Asked)
    requires { at + 6 ≤ length answers.old }
    ensures { answers.new ≡ put answers.old at (0 ∷ 0 ∷ cond r.says 1 0 ∷ r.reason ∷ r.opened ∷ r.deciding ∷ []) }
{
    put_six(
        answers,
        at,
        0,
        0,
        r.says as u32,
        r.reason,
        r.opened,
        r.deciding,
    )
}

// Answers the pairs one by one, each by six numbers, with the place of every vertex's group in the table behind the words of the walk's stack. The marks, one for each
// vertex, are all 0 before; afterwards those of the last pair that was not refused bear the stamp that is returned, and no other does.
fn ask_each(
    sections: &Sections,
    sources: &[u32],
    targets: &[u32],
    marks: &mut [u8],
    work: &mut [u32],
    answers: &mut [u32],
) -> u8
    requires placed { Placed sections.now.layout.width sections.now.layout.n sections.now.layout.k sections.now.names.now sections.now.groups.now (table_in sections.now.layout.width sections.now.layout.n work.old) }
    requires n_in_bounds { stack_words sections.now.layout.width sections.now.layout.n + sections.now.layout.n ≤ length work.old }
    requires marks_value { (marks.old ≡ replicate sections.now.layout.n 0) × ((length sources.now ≡ length targets.now) × (6 * length sources.now ≤ length answers.old)) }
    ensures answers_after { answers.new ≡ put answers.old 0 (sixes sections.now.layout.n (answer (index_of_sections sections.now)) sources.now targets.now (length sources.now)) }
    ensures marks_after { seen_as result marks.new ≡ last_marks sections.now.layout.n (answer (index_of_sections sections.now)) sources.now targets.now (length sources.now) }
    ensures kept { Kept work.old work.new 0 (stack_words sections.now.layout.width sections.now.layout.n) }
{
    let n = sections.layout.n;
    let base = ask_stacked::stack_words(sections.layout.width, n);
    let mut used = 0;
    let mut last = 1;
    for i in 0..sources.len() {
        let u = sources[i] as usize;
        let v = targets[i] as usize;
        let at = 6 * i;
        if n <= u {
            put_refused(answers, at, Refusal::BadVertex(0));
        } else if n <= v {
            put_refused(answers, at, Refusal::BadVertex(1));
        } else {
            let x = work[base + u] as usize;
            let t = work[base + v] as usize;
            let a = next_reply(&sections.towards(t), x, marks, work, used);
            put_reply(answers, at, a.reply);
            used = a.used;
            last = a.stamp;
        }
    }
    last
}

// Sets each mark that bears the stamp to 1, and all others to 0.
fn settle(marks: &mut [u8], stamp: u8)
    ensures { marks.new ≡ seen_as stamp marks.old }
{
    for mark in marks.iter_mut() {
        *mark = u8::from(*mark == stamp);
    }
}

// Answers the pairs over the six sections: the places are laid out once, in the lent words behind those of the walk's stack, and the pairs are asked one by one. The
// marks, one for each vertex, are all 0 before; afterwards they are those of the last pair that was not refused.
pub fn ask_pairs(
    sections: &Sections,
    sources: &[u32],
    targets: &[u32],
    marks: &mut [u8],
    work: &mut [u32],
    answers: &mut [u32],
)
    requires n_in_bounds { stack_words sections.now.layout.width sections.now.layout.n + sections.now.layout.n ≤ length work.old }
    requires marks_value { (marks.old ≡ replicate sections.now.layout.n 0) × ((length sources.now ≡ length targets.now) × (6 * length sources.now ≤ length answers.old)) }
    ensures answers_after { answers.new ≡ put answers.old 0 (sixes sections.now.layout.n (answer (index_of_sections sections.now)) sources.now targets.now (length sources.now)) }
    ensures marks_after { marks.new ≡ last_marks sections.now.layout.n (answer (index_of_sections sections.now)) sources.now targets.now (length sources.now) }
    ensures kept { Kept work.old work.new 0 (stack_words sections.now.layout.width sections.now.layout.n + sections.now.layout.n) }
{
    let w = sections.layout.width;
    let n = sections.layout.n;
    let k = sections.layout.k;
    let base = ask_stacked::stack_words(w, n);
    places::lay_out(
        sections.names,
        sections.groups,
        w,
        n,
        k,
        &mut work[base..base + n],
    );
    let last = ask_each(sections, sources, targets, marks, work, answers);
    settle(marks, last)
}
