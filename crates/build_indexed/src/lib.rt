// An index in lent memory: groups and children found in work memory, and what lies there written as the stored form, one labelling after the other.
#![tactic(auto)]

ghost use Rattle.std.specs.Prelude.{◌≡◌, ◌++◌, map, ◌+◌, ◌-◌, ◌*◌, ◌^◌, ◌≤◌, ◌<◌, length, drop};
ghost use Rattle.lineage.specs.Lists.{upto, first_of, joined, part};
ghost use Rattle.lineage.specs.Numbers.{written};
ghost use Rattle.lineage.specs.Index.{index_by};
ghost use Rattle.lineage.specs.Stored.{encode};
ghost use Rattle.lineage.specs.Calls.{order_at};
ghost use Rattle.numbers.specs.Bounds.{vertex_bound, entry_bound};
ghost use Rattle.numbers.specs.Put.{put};
ghost use Rattle.numbers.specs.Regions.{Kept};
ghost use Rattle.build_labelled.specs.Window.{walk_at, labels_window};
ghost use Rattle.build_orders.specs.Input.{graph_of};
ghost use Rattle.numbers.specs.Found.{found_below};
ghost use Rattle.build_indexed.specs.Written.{written_as};
ghost use Rattle.build_indexed.specs.Shared.{row_shared};
ghost use Rattle.build_indexed.specs.Memory.{children_from, labels_from, condensed_in, labelling_block, CondensedFit, CondensedFound, Ready, OrderLabelled};

use build_labelled::WorkGroups;
use build_rows::WorkRows;
use build_writing::{GroupWords, LabellingWords};
use stored_header::Layout;

// k groups, and c child entries.
#[derive(Clone, Copy)]
pub struct Sizes {
    pub k: usize,
    pub c: usize,
}

// Finds the groups and their children: names, group list and places in the first 3n words, then the rows of parents and of children.
pub fn condensed(n: usize, sources: &[u32], targets: &[u32], work: &mut [u32]) -> Sizes
    requires { CondensedFit (graph_of n sources.now targets.now) work.old }
    ensures { CondensedFound (graph_of n sources.now targets.now) work.old work.new result.k result.c }
{
    let k = build_condense::condense(n, sources, targets, work);
    let c = build_children::children(sources, targets, work, 2 * n, n, k, 3 * n);
    Sizes { k, c }
}

// The first group whose row of parents, told by where the k rows start, has two entries or more.
pub fn first_shared(starts: &[u32], k: usize) -> Option<usize>
    requires { length starts.now ≡ k + 1 }
    ensures { result ≡ found_below k (first_of (row_shared starts.now) (upto k) k) }
{
    for p in 0..k {
        if starts[p] as usize + 1 < starts[p + 1] as usize {
            return Some(p);
        }
    }
    None
}

// Where the children lie: behind names, group list, places and parents.
fn children_from(n: usize, k: usize, edges: usize) -> usize
    requires { (n ≤ vertex_bound) × ((k ≤ n) × (edges ≤ entry_bound)) }
    ensures { result ≡ children_from n k edges }
{
    3 * n + k + 1 + edges + k
}

// Where a labelling is made: behind the children.
fn labels_from(n: usize, k: usize, edges: usize) -> usize
    requires { (n ≤ vertex_bound) × ((k ≤ n) × (edges ≤ entry_bound)) }
    ensures { result ≡ labels_from n k edges }
{
    children_from(n, k, edges) + k + 1 + edges
}

// Where the regions of a labelling's traversal lie: s, and behind it the places by rank, m and e.
fn walk_from(n: usize, k: usize, c: usize, edges: usize) -> usize
    requires { (n ≤ vertex_bound) × ((k ≤ n) × ((c ≤ edges) × (edges ≤ entry_bound))) }
    ensures { result ≡ walk_at (labels_from n k edges) n k c }
{
    labels_from(n, k, edges) + n + k + k + 1 + c
}

// Labels the groups under order j, and writes the labelling from position at on.
fn write_order(
    out: &mut [u8],
    at: usize,
    l: Layout,
    edges: usize,
    orders: &[u32],
    j: usize,
    work: &mut [u32],
)
    requires ready { Ready l edges orders.now work.old }
    requires j_lt_d { (j < l.d) × (at + l.width * ((l.stride + 1) * l.k) ≤ length out.old) }
    ensures order_labelled { OrderLabelled l edges orders.now work.old work.new j }
    ensures out_after { out.new ≡ put out.old at (written l.width (labelling_block l edges orders.now work.old j)) }
{
    let n = l.n;
    let k = l.k;
    let c = l.c;
    let base = labels_from(n, k, edges);
    let walk = walk_from(n, k, c, edges);
    let groups = WorkGroups {
        n,
        k,
        c,
        names: 0,
        place: 2 * n,
        parents: 3 * n,
        children: children_from(n, k, edges),
    };
    build_labelled::label(orders, j * n, work, &groups, base);
    let made = &work[..];
    let words = LabellingWords {
        s: &made[walk..walk + k],
        m: &made[walk + 5 * k..walk + 6 * k],
        e: &made[walk + 6 * k..walk + 7 * k],
        by_rank: &made[walk + 4 * k..walk + 5 * k],
    };
    build_writing::write_labelling(out, at, l.width, l.stride, &words);
}

// Labels the groups under one order after the other, and writes each labelling behind the one before it, at the offset of the labels.
fn write_labels(out: &mut [u8], l: Layout, edges: usize, orders: &[u32], work: &mut [u32])
    requires ready { Ready l edges orders.now work.old }
    requires total_in_bounds { l.total ≤ length out.old }
    ensures order_labelled { OrderLabelled l edges orders.now work.old work.new (l.d - 1) }
    ensures out_after { out.new ≡ put out.old l.labels (written l.width (joined (map (labelling_block l edges orders.now work.old) (upto l.d)))) }
{
    let step = numbers::bytes_of(l.width, (l.stride + 1) * l.k);
    for j in 0..l.d {
        write_order(out, l.labels + step * j, l, edges, orders, j, work);
    }
}

// Writes the index of the groups that lie in work memory, under the d orders: the labels first, then the levels from the ranks of the last of them, then all that stands
// before the labels.
pub fn write_index(
    out: &mut [u8],
    form: usize,
    l: Layout,
    edges: usize,
    orders: &[u32],
    work: &mut [u32],
)
    requires form_bound { form < 2 ^ 32 }
    requires ready { Ready l edges orders.now work.old }
    requires total_in_bounds { l.total ≤ length out.old }
    ensures out_after { out.new ≡ encode (written_as form l.width l.stride) (index_by (condensed_in work.old l.n l.k l.c edges) (map (order_at l.n orders.now) (upto l.d))) ++ drop l.total out.old }
    ensures kept { Kept work.old work.new (labels_from l.n l.k edges) (labels_window l.n l.k l.c) }
{
    let n = l.n;
    let k = l.k;
    let c = l.c;
    let children = children_from(n, k, edges);
    let base = labels_from(n, k, edges);
    let walk = walk_from(n, k, c, edges);
    let values = children + k + 1;
    write_labels(out, l, edges, orders, work);
    build_levels::levels(
        work,
        walk + 4 * k,
        WorkRows {
            starts: children,
            values,
            c,
            k,
        },
        base,
    );
    let made = &work[..];
    let words = GroupWords {
        names: &made[..n],
        groups: &made[n..n + k],
        levels: &made[base..base + k],
        starts: &made[children..children + k + 1],
        children: &made[values..values + c],
    };
    build_writing::write_groups(out, form, l, &words);
}
