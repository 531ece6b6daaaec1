// The walk as one loop, with its stack in lent words: two words a frame, where a row goes on and where it ends. It is the walk of the two functions that call each
// other (`ask_walk`), and needs no call stack however deep it goes.
#![tactic(auto)]

ghost use Rattle.std.specs.Prelude.{◌≡◌, ◌+◌, ◌*◌, ◌^◌, ◌≤◌, ◌<◌, length, get_or, set};
ghost use Rattle.lineage.specs.Numbers.{Width, num_at};
ghost use Rattle.lineage.specs.Walk.{walked, open_at};
ghost use Rattle.numbers.specs.Regions.{Kept};
ghost use Rattle.ask_walk.specs.Fit.{net_in, Fit, Fresh, Marks};
ghost use Rattle.ask_walk.specs.Stamps.{seen_as, Under};
ghost use Rattle.ask_walk.specs.Walks.{net_of_walk};
ghost use Rattle.ask_stacked.specs.Entered.{Entered};
ghost use Rattle.ask_stacked.specs.Words.{stack_words};

use ask_intervals::Judged;
use ask_walk::Seen;
use ask_walk::towards::Towards;
use stored::reading::Labels;

// What is left of a row of children: those from `next` to before `end`.
#[derive(Clone, Copy)]
struct Row {
    next: usize,
    end: usize,
}

// Notes a row in the frame at a depth.
fn push(work: &mut [u32], depth: usize, row: Row)
    requires depth_in_bounds { 2 * depth + 1 < length work.old }
    requires next_bound { (row.next < 2 ^ 32) × (row.end < 2 ^ 32) }
    ensures { work.new ≡ set (set work.old (2 * depth) row.next) (2 * depth + 1) row.end }
{
    let i = 2 * depth;
    work[i] = row.next as u32;
    work[i + 1] = row.end as u32;
}

// The row in the frame at a depth.
fn frame(work: &[u32], depth: usize) -> Row
    requires { 2 * depth + 1 < length work.now }
    ensures { (result.next ≡ get_or work.now (2 * depth) 0) × (result.end ≡ get_or work.now (2 * depth + 1) 0) }
{
    let i = 2 * depth;
    Row {
        next: work[i] as usize,
        end: work[i + 1] as usize,
    }
}

// Enters g: marks it with the stamp, at its name, and takes its row.
fn enter(groups: &[u8], starts: &[u8], w: usize, marks: &mut [u8], g: usize, stamp: u8) -> Row
    requires width { Width w }
    requires w_in_bounds { (w * g + w ≤ length groups.now) × (num_at w groups.now g < length marks.old) }
    requires g_bound { (g < 2 ^ 32) × (w * (g + 1) + w ≤ length starts.now) }
    requires under { Under (stamp + 1) marks.old }
    ensures entered { Entered w groups.now starts.now g (seen_as stamp marks.old) (seen_as stamp marks.new) result }
    ensures under_2 { Under (stamp + 1) marks.new }
{
    let name = numbers::num(groups, w, g);
    marks[name] = stamp;
    Row {
        next: numbers::num(starts, w, g),
        end: numbers::num(starts, w, g + 1),
    }
}

// Opens g, with what is left of each row on the way down in the lent words. It is a function of its own, and what the walk goes by stands apart: given as a walk, or within its
// caller, it takes a seventh to a quarter more instructions.
#[inline(never)]
fn open_in_words(
    groups: &[u8],
    levels: &[u8],
    starts: &[u8],
    children: &[u8],
    labels: &[u8],
    w: usize,
    k: usize,
    d: usize,
    t: usize,
    marks: &mut [u8],
    work: &mut [u32],
    g: usize,
    stamp: u8,
) -> Seen
    requires fit { Fit w k d t groups.now levels.now starts.now children.now labels.now (length marks.old) }
    requires fresh { Fresh (net_in w k d t groups.now levels.now starts.now children.now labels.now) w k (num_at w levels.now g) stamp groups.now levels.now marks.old g }
    requires marks { Marks (net_in w k d t groups.now levels.now starts.now children.now labels.now) k stamp marks.old }
    requires marks_in_bounds { 2 * length marks.old ≤ length work.old }
    ensures marks_after { walked result.found result.deciding result.opened (seen_as stamp marks.new) ≡ open_at (net_in w k d t groups.now levels.now starts.now children.now labels.now) (num_at w levels.now g + 1) g (seen_as stamp marks.old) }
    ensures under { Under (stamp + 1) marks.new }
    ensures kept { Kept work.old work.new 0 (2 * length marks.old) }
{
    let triples = Labels {
        bytes: labels,
        width: w,
        z: 3,
        k,
        d,
    };
    let mut row = enter(groups, starts, w, marks, g, stamp);
    let mut depth: usize = 0;
    let mut opened: usize = 1;
    loop {
        if row.next < row.end {
            let h = numbers::num(children, w, row.next);
            row.next += 1;
            if !ask_walk::skipped(groups, levels, w, t, marks, h, stamp) {
                match ask_intervals::judge(&triples, h, t) {
                    Judged::Inside(deciding) => {
                        return Seen {
                            found: true,
                            deciding,
                            opened,
                        };
                    }
                    Judged::Outside(_) => {}
                    Judged::Neither => {
                        push(work, depth, row);
                        row = enter(groups, starts, w, marks, h, stamp);
                        depth += 1;
                        opened += 1;
                    }
                }
            }
        } else if depth > 0 {
            depth -= 1;
            row = frame(work, depth);
        } else {
            return Seen {
                found: false,
                deciding: 0,
                opened,
            };
        }
    }
}

// How many of the lent words the stack takes beside n marks: none where numbers are of 16 bits.
pub fn stack_words(w: usize, n: usize) -> usize
    requires { 2 * n < 2 ^ 64 }
    ensures { result ≡ stack_words w n }
{
    if w == 2 { 0 } else { 2 * n }
}

// The walk from g, of level lev: where numbers are of 16 bits by the two functions that call each other, otherwise in the lent words.
pub fn walk_from(
    walk: &Towards,
    marks: &mut [u8],
    work: &mut [u32],
    lev: usize,
    g: usize,
    stamp: u8,
) -> Seen
    requires marks_long { length marks.old ≡ walk.now.marks }
    requires fresh { Fresh (net_of_walk walk.now) walk.now.width walk.now.k lev stamp walk.now.groups.now walk.now.levels.now marks.old g }
    requires marks { Marks (net_of_walk walk.now) walk.now.k stamp marks.old }
    requires lev_value { (lev ≡ num_at walk.now.width walk.now.levels.now g) × (stack_words walk.now.width (length marks.old) ≤ length work.old) }
    ensures marks_after { walked result.found result.deciding result.opened (seen_as stamp marks.new) ≡ open_at (net_of_walk walk.now) (lev + 1) g (seen_as stamp marks.old) }
    ensures under { Under (stamp + 1) marks.new }
    ensures kept { Kept work.old work.new 0 (stack_words walk.now.width (length marks.old)) }
{
    if walk.width == 2 {
        return ask_walk::open_group(walk, marks, lev, g, stamp);
    }
    open_in_words(
        walk.groups,
        walk.levels,
        walk.starts,
        walk.children,
        walk.labels,
        walk.width,
        walk.k,
        walk.d,
        walk.t,
        marks,
        work,
        g,
        stamp,
    )
}
