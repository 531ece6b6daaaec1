// The name of each vertex's group, by one traversal of rows in work memory.
#![tactic(auto)]

ghost use Rattle.std.specs.Prelude.{◌≡◌, ◌+◌, ◌*◌, ◌≤◌, ◌<◌, length, replicate};
ghost use Rattle.lineage.specs.Lists.{part};
ghost use Rattle.laws.specs.OnePass.{least_of, GroupNames};
ghost use Rattle.numbers.specs.Regions.{Kept};
ghost use Rattle.numbers.specs.Stamped.{Stamped};
ghost use Rattle.build_rows.specs.Rows.{rows_in};
ghost use Rattle.build_traversal.specs.Fit.{TraverseFit};
ghost use Rattle.build_names.specs.Window.{pushed, RunFit, TakeFit, Taken, SettleFit, Settled};

use build_rows::WorkRows;
use build_traversal::Frame;

// Enters a vertex at depth d, at place sp of the stack: opens its frame, whose mark is its number, with the low of the vertex below.
fn enter(work: &mut [u32], base: usize, n: usize, d: usize, sp: usize, frame: Frame)
    requires n_in_bounds { base + 6 * n ≤ length work.old }
    requires v_lt_n { frame.v < n }
    requires d_lt_n { d < n }
    requires sp_lt_n { sp < n }
    ensures { work.new ≡ pushed work.old base n d sp frame.v frame.e frame.number frame.mark }
{
    build_traversal::open_frame(work, base, n, d, frame);
    work[base + 4 * n + sp] = frame.v;
}

// The least of the words.
fn least_word(words: &[u32]) -> u32
    requires { 0 < length words.now }
    ensures { result ≡ least_of words.now }
{
    words.iter().fold(words[0], |least, word| least.min(*word))
}

// Gives each vertex of the run of size words from at on the same word: its group's name, or its number.
fn name_run(work: &mut [u32], at: usize, size: usize, name: u32, base: usize, n: usize)
    requires { RunFit work.old at size base n }
    ensures kept { Kept work.old work.new base n }
    ensures stamped { Stamped name (part work.old at size) (part work.old base n) (part work.new base n) }
{
    for i in 0..size {
        let v = work[at + i] as usize;
        work[base + v] = name;
    }
}

// Makes a group of the vertices that stand on the stack from begin to sp: names them by the least, and numbers them n, which no low is above.
fn take_group(work: &mut [u32], base: usize, n: usize, begin: usize, sp: usize)
    requires { TakeFit work.old base n begin sp }
    ensures { Taken work.old work.new base n begin sp }
{
    let at = base + 4 * n + begin;
    let size = sp - begin;
    let name = least_word(&work[at..at + size]);
    name_run(work, at, size, name, base + 5 * n, n);
    name_run(work, at, size, n as u32, base, n);
}

// Leaves the vertex at depth d, and returns how many stand on the stack then: where its low is its own number, what stands from it on is a group.
fn settle(work: &mut [u32], base: usize, n: usize, d: usize, sp: usize, low: u32) -> usize
    requires { SettleFit work.old base n d sp }
    ensures { Settled work.old work.new base n d sp low result }
{
    let v = work[base + n + d] as usize;
    let own = work[base + v];
    if own == low {
        let begin = own as usize - 1;
        take_group(work, base, n, begin, sp);
        return begin;
    }
    sp
}

// Goes through the rows from the roots, with no vertex seen.
fn run(work: &mut [u32], rows: WorkRows, roots: usize, q: usize, base: usize)
    requires traverse_fit { TraverseFit work.old rows.starts rows.values rows.c roots q rows.k base (6 * rows.k) }
    requires n_value { part work.old base rows.k ≡ replicate rows.k 0 }
    ensures kept { Kept work.old work.new base (6 * rows.k) }
    ensures group_names { GroupNames (rows_in work.old rows.starts rows.values rows.c rows.k) (part work.old roots q) (part work.new (base + 5 * rows.k) rows.k) }
{
    let n = rows.k;
    let mut d: usize = 0;
    let mut sp: usize = 0;
    let mut low: u32 = 0;
    let mut e: usize = 0;
    let mut at = roots;
    let mut end = q;
    loop {
        if e < end {
            let v = work[at + e];
            e += 1;
            let i = v as usize;
            let number = work[base + i];
            if number == 0 {
                let first = (sp + 1) as u32;
                let frame = Frame {
                    v,
                    mark: first,
                    e: e as u32,
                    number: low,
                };
                enter(work, base, n, d, sp, frame);
                sp += 1;
                low = first;
                d += 1;
                e = work[rows.starts + i] as usize;
                at = rows.values;
                end = work[rows.starts + i + 1] as usize;
            } else {
                low = low.min(number);
            }
        } else if d > 0 {
            d -= 1;
            sp = settle(work, base, n, d, sp, low);
            low = work[base + 3 * n + d].min(low);
            e = work[base + 2 * n + d] as usize;
            at = build_traversal::row_place(roots, rows.values, d);
            end = build_traversal::row_end(
                &work[rows.starts..rows.starts + n + 1],
                q,
                &work[base + n..base + 2 * n],
                d,
            );
        } else {
            return;
        }
    }
}

// The names by one traversal of rows of vertices, one for each of n vertices, from q roots, in the 6n words from base on: the name of each root's group stands
// in the sixth region of n words.
pub fn name_groups(work: &mut [u32], rows: WorkRows, roots: usize, q: usize, base: usize)
    requires { TraverseFit work.old rows.starts rows.values rows.c roots q rows.k base (6 * rows.k) }
    ensures kept { Kept work.old work.new base (6 * rows.k) }
    ensures group_names { GroupNames (rows_in work.old rows.starts rows.values rows.c rows.k) (part work.old roots q) (part work.new (base + 5 * rows.k) rows.k) }
{
    numbers::clear_part(work, base, rows.k);
    run(work, rows, roots, q, base);
}
