// From an edge list to the groups: names, group list and places, in work memory.
#![tactic(auto)]

ghost use Rattle.build_orders.specs.Input.{graph_of};
ghost use Rattle.build_condense.specs.Window.{CondenseFit, GroupsFound};

use build_rows::WorkRows;

// Finds the groups and returns how many there are: in the first n words the name of each vertex's group, behind them the group list, and from word 2n on the
// place of each vertex's group. The edges are laid out row by row, and one traversal from the vertices in turn names every vertex.
pub fn condense(n: usize, sources: &[u32], targets: &[u32], work: &mut [u32]) -> usize
    requires { CondenseFit (graph_of n sources.now targets.now) work.old }
    ensures { GroupsFound (graph_of n sources.now targets.now) work.old work.new result }
{
    let edges = sources.len();
    let rows = n + n + 1;
    let base = rows + edges;
    build_rows::count_up(work, 0, n);
    build_rows::rows(sources, targets, work, 0, n, n, n);
    let by_source = WorkRows {
        starts: n,
        values: rows,
        c: edges,
        k: n,
    };
    build_names::name_groups(work, by_source, 0, n, base);
    build_groups::group_list(work, base + 5 * n, n, 0)
}
