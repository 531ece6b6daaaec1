// The test on two intervals, over the labels of a stored index (rules 2 and 4): whether x's inner interval contains t's e, or x's outer interval does not contain
// t's, by the first labelling that decides either way.
#![tactic(auto)]

ghost use Rattle.std.specs.Prelude.{◌≡◌, ◌+◌, ◌*◌, ◌≤◌, ◌<◌, leb, length};
ghost use Rattle.lineage.specs.Numbers.{Width, num_at};
ghost use Rattle.stored.specs.Sections.{labels_in};
ghost use Rattle.ask_intervals.specs.Intervals.{judged, undecided_by};

use stored::parts::{E, M, S};
use stored::reading::Labels;

// What the labellings tell, by the number, from 1, of the first that decides: in it x's inner interval contains t's e, or x's outer interval does not contain t's; or
// none decides.
#[derive(Clone, Copy, Debug, PartialEq, Eq)]
pub enum Judged {
    Inside(usize),
    Outside(usize),
    Neither,
}

// Whether number i of x's triple is not above number j of t's.
fn not_above(triples: &[u8], w: usize, x: usize, i: usize, t: usize, j: usize) -> bool
    requires width { Width w }
    requires i_bound { (i < 3) × (w * (3 * x + 3) ≤ length triples.now) }
    requires j_bound { (j < 3) × (w * (3 * t + 3) ≤ length triples.now) }
    ensures { result ≡ leb (num_at w triples.now (3 * x + i)) (num_at w triples.now (3 * t + j)) }
{
    numbers::num(triples, w, 3 * x + i) <= numbers::num(triples, w, 3 * t + j)
}

// Whether bound b of x's intervals against t's decides nothing, the bounds in the order in which they decide: 0 the upper one, which both intervals share; 1 the inner
// interval's lower one; 2 the outer interval's.
fn undecided_by(triples: &[u8], w: usize, x: usize, t: usize, b: usize) -> bool
    requires width { Width w }
    requires x_in_bounds { (w * (3 * x + 3) ≤ length triples.now) × (w * (3 * t + 3) ≤ length triples.now) }
    ensures { result ≡ undecided_by w triples.now x t b }
{
    if b == 0 {
        return not_above(triples, w, t, E, x, E);
    }
    if b == 1 {
        return !not_above(triples, w, x, M, t, E);
    }
    not_above(triples, w, x, S, t, S)
}

// Both interval tests at once: a loop over labellings and bounds, left when one labelling decides. Inlined: called, it costs a question a fifth to a half more.
#[inline]
pub fn judge(labels: &Labels, x: usize, t: usize) -> Judged
    requires z_value { labels.now.z ≡ 3 }
    requires x_lt_k { (x < labels.now.k) × (t < labels.now.k) }
    ensures { result ≡ judged x t (labels_in labels.now.width 3 labels.now.bytes.now labels.now.k labels.now.d) }
{
    let mut told = Judged::Neither;
    'labellings: for l in 0..labels.d {
        let triples = labels.tuples(l);
        for b in 0..3 {
            if !undecided_by(triples, labels.width, x, t, b) {
                if b == 1 {
                    told = Judged::Inside(l + 1);
                    break 'labellings;
                }
                told = Judged::Outside(l + 1);
                break 'labellings;
            }
        }
    }
    told
}
