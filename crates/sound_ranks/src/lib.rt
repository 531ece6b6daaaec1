// The tests of s, m and e of a labelling, rank by rank: each is the rank of its place, whose m is a rank not above e; and group by group: e falls along its children, s is
// the least below.
#![tactic(auto)]

ghost use Rattle.std.specs.Prelude.{◌≡◌, ◌<◌};
ghost use Rattle.lineage.specs.Lists.{all_below};
ghost use Rattle.stored.specs.Reading.{rows_of};
ghost use Rattle.sound_ranks.specs.Tests.{rank_and_inner, fall_and_outer};
ghost use Rattle.sound_ranks.specs.Reading.{tuples_read, labelling_read};

pub mod reading;

use reading::{OneLabelling, PlacedRows, TuplesByPlace};

// Whether the place at rank r, from 0, has that rank, and its m is a rank not above its e.
fn rank_passes<const Z: usize>(labelling: &OneLabelling<Z>, r: usize) -> bool
    requires { r < labelling.now.k }
    ensures { result ≡ rank_and_inner labelling.now.k (labelling_read Z labelling.now) r }
{
    let p = labelling.place(r);
    if labelling.k <= p {
        return false;
    }
    let m = labelling.m(p);
    let e = labelling.e(p);
    (e == r + 1) & ((1 <= m) & (m <= e))
}

// Whether the place at every rank has that rank, and its m is a rank not above its e. The loop does not end at a rank that fails: if it went on only where e is r + 1, the
// compiler would take the e that was read for the next r, and each turn would wait for the reads of the one before.
pub fn ranks_pass<const Z: usize>(labelling: &OneLabelling<Z>) -> bool
    ensures { result ≡ all_below labelling.now.k (rank_and_inner labelling.now.k (labelling_read Z labelling.now)) }
{
    let mut passed = true;
    for r in 0..labelling.k {
        passed = passed & rank_passes(labelling, r);
    }
    passed
}

// Whether e falls along the children of group p, and its s is the least of its own e and their s. It goes into the loop over the groups, where the machine knows z.
#[inline(always)]
pub fn outer_passes(rows: &PlacedRows, tuples: &TuplesByPlace, p: usize) -> bool
    requires k_same { rows.now.rows.k ≡ tuples.now.k }
    requires p_lt_k { p < tuples.now.k }
    ensures { result ≡ fall_and_outer (rows_of rows.now.rows) (tuples_read tuples.now) p }
{
    let row = rows.rows.row(p);
    let top = tuples.e(p);
    let mut s = top;
    for i in 0..row.len {
        let q = row.get(i);
        if top <= tuples.e(q) {
            return false;
        }
        s = s.min(tuples.s(q));
    }
    tuples.s(p) == s
}
