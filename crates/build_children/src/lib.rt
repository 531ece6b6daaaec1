// The children of every group, and its parents, laid out in work memory.
#![tactic(auto)]

ghost use Rattle.build_children.specs.Window.{ChildrenFit, ChildrenFound};

use build_rows::WorkRows;

// Lays out the children and the parents of each of k groups, told by their places, and returns how many children there are in all. The edges laid out by target
// give for each group the places that its edges come from; stripped, its parents; and turned, each group's children, rising. The stamps of the stripping lie
// where the sequence 0, .. , k - 1 is written then.
pub fn children(
    sources: &[u32],
    targets: &[u32],
    work: &mut [u32],
    place: usize,
    n: usize,
    k: usize,
    base: usize,
) -> usize
    requires { ChildrenFit (record { n = n; sources = sources.now; targets = targets.now }) work.old place k base }
    ensures { ChildrenFound (record { n = n; sources = sources.now; targets = targets.now }) work.old work.new place k base result }
{
    let e = sources.len();
    let parents = base + k + 1;
    let sequence = parents + e;
    let starts = sequence + k;
    let children = starts + k + 1;
    build_rows::rows(targets, sources, work, place, n, k, starts);
    numbers::clear_part(work, sequence, k);
    let by_target = WorkRows {
        starts,
        values: children,
        c: e,
        k,
    };
    let c = build_stripping::strip(work, by_target, base);
    build_rows::count_up(work, sequence, k);
    build_turning::turn(
        work,
        WorkRows {
            starts: base,
            values: parents,
            c,
            k,
        },
        sequence,
        starts,
    );
    c
}
