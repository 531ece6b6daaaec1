// One traversal, depth first, of rows in work memory, and the labels that it comes to.
#![tactic(auto)]

ghost use Rattle.std.specs.Prelude.{◌≡◌, [], ℕ, suc, ◌+◌, ◌*◌, ◌^◌, ◌≤◌, ◌<◌, length, get_or, set, replicate};
ghost use Rattle.lineage.specs.Lists.{part};
ghost use Rattle.lineage.specs.Labels.{traverse};
ghost use Rattle.numbers.specs.Regions.{Kept};
ghost use Rattle.build_rows.specs.Rows.{rows_in};
ghost use Rattle.build_traversal.specs.Frames.{framed, row_place, row_end};
ghost use Rattle.build_traversal.specs.Traversed.{finished_at, Traversed};
ghost use Rattle.build_traversal.specs.Fit.{TraverseFit};

use build_rows::WorkRows;

// What is noted of a vertex v that is entered: its mark, the place e of the row below to come back to, and a number of the vertex below.
#[derive(Clone, Copy, Debug, PartialEq, Eq)]
pub struct Frame {
    pub v: u32,
    pub mark: u32,
    pub e: u32,
    pub number: u32,
}

// Opens a frame at depth d: marks its vertex, and notes the rest.
pub fn open_frame(work: &mut [u32], base: usize, n: usize, d: usize, frame: Frame)
    requires n_in_bounds { base + 4 * n ≤ length work.old }
    requires v_lt_n { frame.v < n }
    requires d_lt_n { d < n }
    ensures { work.new ≡ framed work.old base n d frame.v frame.mark frame.e frame.number }
{
    let at = frame.v as usize;
    work[base + at] = frame.mark;
    work[base + n + d] = frame.v;
    work[base + 2 * n + d] = frame.e;
    work[base + 3 * n + d] = frame.number;
}

// Where the row at depth d lies.
pub fn row_place(roots: usize, values: usize, d: usize) -> usize
    ensures { result ≡ row_place roots values d }
{
    if d == 0 { roots } else { values }
}

// Where the row at depth d ends: after q roots, or where the row of the frame's vertex ends.
pub fn row_end(starts: &[u32], q: usize, vertices: &[u32], d: usize) -> usize
    requires d_in_bounds { d ≤ length vertices.now }
    requires by_index { (i : ℕ) → i < d → get_or vertices.now i 0 + 1 < length starts.now }
    ensures { result ≡ row_end starts.now q vertices.now d }
{
    if d == 0 {
        return q;
    }
    let v = vertices[d - 1] as usize;
    starts[v + 1] as usize
}

// Enters a vertex at depth d, with k finished before it: opens its frame, and notes its m.
fn enter(work: &mut [u32], base: usize, n: usize, d: usize, k: usize, frame: Frame)
    requires n_in_bounds { base + 7 * n ≤ length work.old }
    requires v_lt_n { frame.v < n }
    requires k_bound { d + k < n }
    requires n_bound { n < 2 ^ 32 }
    ensures { work.new ≡ set (framed work.old base n d frame.v frame.mark frame.e frame.number) (base + 5 * n + frame.v) (k + 1) }
{
    open_frame(work, base, n, d, frame);
    work[base + 5 * n + frame.v as usize] = (k + 1) as u32;
}

// Leaves the vertex at depth d, with k finished before it: notes its s, the vertex itself and its e.
fn leave(work: &mut [u32], base: usize, n: usize, d: usize, k: usize, s: u32)
    requires n_in_bounds { base + 7 * n ≤ length work.old }
    requires k_bound { d + k < n }
    requires d_bound { get_or work.old (base + n + d) 0 < n }
    requires n_bound { n < 2 ^ 32 }
    ensures { work.new ≡ finished_at work.old base n k (get_or work.old (base + n + d) 0) s }
{
    let v = work[base + n + d];
    let at = v as usize;
    work[base + at] = s;
    work[base + 4 * n + k] = v;
    work[base + 6 * n + at] = (k + 1) as u32;
}

// Goes through the rows from the roots, with no vertex marked, and returns how many vertices are finished. On its way s is the least of what the vertex open
// last has come upon, n before anything is.
fn run(work: &mut [u32], rows: WorkRows, roots: usize, q: usize, base: usize) -> usize
    requires traverse_fit { TraverseFit work.old rows.starts rows.values rows.c roots q rows.k base (7 * rows.k) }
    requires n_value { part work.old base rows.k ≡ replicate rows.k 0 }
    ensures kept { Kept work.old work.new base (7 * rows.k) }
    ensures traversed { Traversed
        (rows_in work.old rows.starts rows.values rows.c rows.k)
        (traverse (rows_in work.old rows.starts rows.values rows.c rows.k) (suc rows.k) (part work.old roots q) [])
        work.new
        base
        rows.k
        result }
{
    let n = rows.k;
    let mut d: usize = 0;
    let mut k: usize = 0;
    let mut s: u32 = 1;
    let mut e: usize = 0;
    let mut at = roots;
    let mut end = q;
    loop {
        if e < end {
            let v = work[at + e];
            e += 1;
            let i = v as usize;
            let mark = work[base + i];
            if mark == 0 {
                let frame = Frame {
                    v,
                    mark: 1,
                    e: e as u32,
                    number: s,
                };
                enter(work, base, n, d, k, frame);
                s = n as u32;
                d += 1;
                e = work[rows.starts + i] as usize;
                at = rows.values;
                end = work[rows.starts + i + 1] as usize;
            } else {
                s = s.min(mark);
            }
        } else if d > 0 {
            d -= 1;
            s = s.min((k + 1) as u32);
            leave(work, base, n, d, k, s);
            k += 1;
            s = work[base + 3 * n + d].min(s);
            e = work[base + 2 * n + d] as usize;
            at = row_place(roots, rows.values, d);
            end = row_end(
                &work[rows.starts..rows.starts + n + 1],
                q,
                &work[base + n..base + 2 * n],
                d,
            );
        } else {
            return k;
        }
    }
}

// The traversal of rows of vertices, one for each of n vertices, from q roots, with its labels, in the 7n words from base on: returns how many vertices are
// finished. They stand in the fifth region of n words; for each vertex its s stands in the first, its m in the sixth and its e in the last.
pub fn traverse(work: &mut [u32], rows: WorkRows, roots: usize, q: usize, base: usize) -> usize
    requires { TraverseFit work.old rows.starts rows.values rows.c roots q rows.k base (7 * rows.k) }
    ensures kept { Kept work.old work.new base (7 * rows.k) }
    ensures traversed { Traversed
        (rows_in work.old rows.starts rows.values rows.c rows.k)
        (traverse (rows_in work.old rows.starts rows.values rows.c rows.k) (suc rows.k) (part work.old roots q) [])
        work.new
        base
        rows.k
        result }
{
    numbers::clear_part(work, base, rows.k);
    run(work, rows, roots, q, base)
}
