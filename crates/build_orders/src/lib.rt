// What build looks at in its input: edge ends, orders as permutations; and an order as places, with the groups to start from.
#![tactic(auto)]

ghost use Rattle.std.specs.Prelude.{◌≡◌, ◌+◌, ◌*◌, ◌^◌, ◌≤◌, ◌<◌, length};
ghost use Rattle.lineage.specs.Lists.{upto, any, those, first_of, part};
ghost use Rattle.lineage.specs.Graph.{group_list};
ghost use Rattle.lineage.specs.Labels.{in_order};
ghost use Rattle.lineage.specs.Calls.{bad_edge, bad_order};
ghost use Rattle.numbers.specs.Regions.{Kept};
ghost use Rattle.numbers.specs.Stamped.{Stamped};
ghost use Rattle.build_orders.specs.Input.{graph_of};
ghost use Rattle.build_orders.specs.Lacks.{lacks};
ghost use Rattle.numbers.specs.Found.{found_below};
ghost use Rattle.build_orders.specs.Fit.{RankedFit, RootsFit};
ghost use Rattle.build_orders.specs.Roots.{row_empty};

// The first edge with an end that is n or more.
pub fn bad_edge(n: usize, sources: &[u32], targets: &[u32]) -> Option<usize>
    requires { length sources.now ≡ length targets.now }
    ensures { result ≡ found_below (length sources.now) (first_of (bad_edge (graph_of n sources.now targets.now)) (upto (length sources.now)) (length sources.now)) }
{
    sources
        .iter()
        .zip(targets)
        .position(|(u, v)| n <= *u as usize || n <= *v as usize)
}

// Stamps the word of each number below n that stands in the order at `at`; a number of n or more is passed over.
fn stamp_order(orders: &[u32], at: usize, n: usize, stamp: u32, work: &mut [u32], base: usize)
    requires n_in_bounds { at + n ≤ length orders.now }
    requires n_in_bounds_2 { base + n ≤ length work.old }
    ensures kept { Kept work.old work.new base n }
    ensures stamped { Stamped stamp (part orders.now at n) (part work.old base n) (part work.new base n) }
{
    for j in 0..n {
        let v = orders[at + j] as usize;
        if v < n {
            work[base + v] = stamp;
        }
    }
}

// Whether one of the words lacks the stamp.
fn one_lacks(words: &[u32], stamp: u32) -> bool
    ensures { result ≡ any (lacks stamp words.now) (upto (length words.now)) }
{
    words.iter().any(|word| *word != stamp)
}

// The first order that is no permutation of 0 to n - 1. Order i stamps the words of its numbers with i + 1, and is a permutation
// where no word is without that stamp.
pub fn bad_order(orders: &[u32], d: usize, n: usize, work: &mut [u32], base: usize) -> Option<usize>
    requires orders_len { length orders.now ≡ d * n }
    requires d_bound { d < 2 ^ 32 }
    requires n_in_bounds { base + n ≤ length work.old }
    ensures value { result ≡ found_below d (first_of (bad_order n orders.now) (upto d) d) }
    ensures kept { Kept work.old work.new base n }
{
    numbers::clear_part(work, base, n);
    for i in 0..d {
        let stamp = (i + 1) as u32;
        stamp_order(orders, i * n, n, stamp, work, base);
        if one_lacks(&work[base..base + n], stamp) {
            return Some(i);
        }
    }
    None
}

// The places of all groups as their names stand in the order at `at`; returns how many they are. Every vertex's place is written, and counted only where the vertex
// names its group; otherwise the next one takes its word.
pub fn ranked(
    orders: &[u32],
    at: usize,
    n: usize,
    work: &mut [u32],
    names: usize,
    place: usize,
    base: usize,
) -> usize
    requires { RankedFit orders.now work.old at n names place base }
    ensures kept { Kept work.old work.new base n }
    ensures upper_bound { result ≤ n }
    ensures result_after { part work.new base result ≡ in_order (part orders.now at n) (group_list (part work.old names n)) }
{
    let mut k = 0;
    for j in 0..n {
        let v = orders[at + j];
        let i = v as usize;
        let name = work[names + i];
        work[base + k] = work[place + i];
        if name == v {
            k += 1;
        }
    }
    k
}

// Of a sequence of k places those whose row is empty, the rows being told by where they start; returns how many they are.
pub fn roots(work: &mut [u32], starts: usize, k: usize, sequence: usize, base: usize) -> usize
    requires { RootsFit work.old starts k sequence base }
    ensures kept { Kept work.old work.new base k }
    ensures upper_bound { result ≤ k }
    ensures result_after { part work.new base result ≡ those (row_empty (part work.old starts (k + 1))) (part work.old sequence k) }
{
    let mut c = 0;
    for j in 0..k {
        let q = work[sequence + j];
        let row = q as usize;
        let next = row + 1;
        if work[starts + next] == work[starts + row] {
            work[base + c] = q;
            c += 1;
        }
    }
    c
}
