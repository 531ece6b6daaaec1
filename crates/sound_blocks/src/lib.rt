// The tests of a labelling's intervals in one pass over the groups, and of its roots. The inner interval of each group is its own rank and, side by side, those of children
// of its own, and all ranks are those of roots. The walks over the blocks of all groups pass each place at most once, and look a child up in its parent's row by halves.
#![tactic(auto)]

ghost use Rattle.std.specs.Prelude.{◌≡◌, ◌≤◌, ◌<◌, length};
ghost use Rattle.lineage.specs.Lists.{all_below};
ghost use Rattle.lineage.specs.Sound.{child_of, walk_ends, block_passes};
ghost use Rattle.stored.specs.Reading.{rows_of};
ghost use Rattle.sound_ranks.specs.Reading.{labelling_read};
ghost use Rattle.sound_blocks.specs.Marks.{unmarked};
ghost use Rattle.sound_blocks.specs.Fit.{Ranked};
ghost use Rattle.sound_blocks.specs.Tests.{intervals_pass};

use numbers::count_below;
use sound_ranks::outer_passes;
use sound_ranks::reading::{OneLabelling, PlacedRows};

// A labelling whose ranks and inner intervals have passed their tests.
#[derive(Clone, Copy)]
pub struct RankedLabelling<'a, const Z: usize> {
    pub labelling: OneLabelling<'a, Z>,
    ghost ranked: { Ranked labelling.k (labelling_read Z labelling) },
}

// Whether q is a child of group p: it is looked for in the row, which rises, by halves.
fn child_in(rows: &PlacedRows, p: usize, q: usize) -> bool
    requires { p < rows.now.rows.k }
    ensures { result ≡ child_of (rows_of rows.now.rows) p q }
{
    let row = rows.rows.row(p);
    let at = count_below(row.bytes, row.width, row.len, q, 0, row.len);
    if row.len <= at {
        return false;
    }
    row.get(at) == q
}

// Whether the inner interval of group p is its own rank and, side by side, the inner intervals of children of p.
fn block_passes<const Z: usize>(rows: &PlacedRows, ranked: &RankedLabelling<Z>, p: usize) -> bool
    requires k_same { rows.now.rows.k ≡ ranked.now.labelling.k }
    requires p_lt_k { p < ranked.now.labelling.k }
    ensures { result ≡ block_passes (rows_of rows.now.rows) (labelling_read Z ranked.now.labelling) p }
{
    let labelling = &ranked.labelling;
    let low = labelling.m(p) - 1;
    let mut rank = labelling.e(p) - 1;
    while low < rank {
        let child = labelling.place(rank - 1);
        if !child_in(rows, p, child) {
            return false;
        }
        rank = labelling.m(child) - 1;
    }
    rank == low
}

// Whether the outer and the inner interval of every group are by the rules.
pub fn intervals_pass<const Z: usize>(rows: &PlacedRows, ranked: &RankedLabelling<Z>) -> bool
    requires { rows.now.rows.k ≡ ranked.now.labelling.k }
    ensures { result ≡ all_below ranked.now.labelling.k (intervals_pass (rows_of rows.now.rows) (labelling_read Z ranked.now.labelling)) }
{
    let tuples = ranked.labelling.by_place();
    for p in 0..ranked.labelling.k {
        if !outer_passes(rows, &tuples, p) {
            return false;
        }
        if !block_passes(rows, ranked, p) {
            return false;
        }
    }
    true
}

// Whether all ranks are, side by side, the inner intervals of groups whose mark is 0.
pub fn roots_pass<const Z: usize>(ranked: &RankedLabelling<Z>, marks: &[u8]) -> bool
    requires { ranked.now.labelling.k ≤ length marks.now }
    ensures { result ≡ walk_ends (labelling_read Z ranked.now.labelling) (unmarked marks.now) ranked.now.labelling.k ranked.now.labelling.k 0 }
{
    let labelling = &ranked.labelling;
    let mut rank = labelling.k;
    while 0 < rank {
        let root = labelling.place(rank - 1);
        if marks[root] != 0 {
            return false;
        }
        rank = labelling.m(root) - 1;
    }
    true
}
