// The labelling of the groups under one order, made in work memory.
#![tactic(auto)]

ghost use Rattle.lineage.specs.Lists.{part};
ghost use Rattle.build_labelled.specs.Window.{OrderRows, Labelled};
ghost use Rattle.build_labelled.specs.Fit.{OrderFit, LabelFit};

use build_rows::WorkRows;

// Groups in work memory: how many vertices, groups and child entries there are; where the name and the place of each vertex's group lie, and where each group's rows of
// parents and of children start, k + 1 starts and then c values.
#[derive(Clone, Copy, Debug, PartialEq, Eq)]
pub struct WorkGroups {
    pub n: usize,
    pub k: usize,
    pub c: usize,
    pub names: usize,
    pub place: usize,
    pub parents: usize,
    pub children: usize,
}

// Lays out what a traversal under the order at `at` goes through: the groups that are nobody's child, and of each group its children, all as their names stand in
// the order. Returns how many are nobody's child.
fn order_rows(
    orders: &[u32],
    at: usize,
    work: &mut [u32],
    groups: &WorkGroups,
    base: usize,
) -> usize
    requires { OrderFit orders.now work.old at groups.now.n groups.now.k groups.now.c groups.now.names groups.now.place groups.now.parents base }
    ensures { OrderRows (part orders.now at groups.now.n) work.old work.new groups.now.n groups.now.k groups.now.c groups.now.names groups.now.parents base result }
{
    let k = groups.k;
    let roots = base + groups.n;
    build_orders::ranked(orders, at, groups.n, work, groups.names, groups.place, base);
    let q = build_orders::roots(work, groups.parents, k, base, roots);
    let of_parents = WorkRows {
        starts: groups.parents,
        values: groups.parents + k + 1,
        c: groups.c,
        k,
    };
    build_turning::turn(work, of_parents, base, roots + k);
    q
}

// The labelling of k groups with c children in all, under the order at `at`: one traversal from the groups that are nobody's child, in that order, to the children of
// each, in that order. The rows of children are those that the labelling is of; the traversal goes by the parents.
pub fn label(orders: &[u32], at: usize, work: &mut [u32], groups: &WorkGroups, base: usize)
    requires { LabelFit orders.now work.old at groups.now.n groups.now.k groups.now.c groups.now.names groups.now.place groups.now.parents groups.now.children base }
    ensures { Labelled (part orders.now at groups.now.n) work.old work.new groups.now.n groups.now.k groups.now.c groups.now.names groups.now.children base }
{
    let k = groups.k;
    let c = groups.c;
    let roots = base + groups.n;
    let starts = roots + k;
    let values = starts + k + 1;
    let q = order_rows(orders, at, work, groups, base);
    let rows = WorkRows {
        starts,
        values,
        c,
        k,
    };
    build_traversal::traverse(work, rows, roots, q, values + c);
}
