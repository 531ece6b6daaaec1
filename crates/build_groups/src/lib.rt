// From the names that were found to names, group list and places side by side.
#![tactic(auto)]

ghost use Rattle.std.specs.Prelude.{◌≡◌, ◌+◌, ◌*◌, ◌≤◌};
ghost use Rattle.lineage.specs.Lists.{part};
ghost use Rattle.lineage.specs.Graph.{group_list};
ghost use Rattle.numbers.specs.Regions.{Kept};
ghost use Rattle.build_groups.specs.Fit.{ListFit};
ghost use Rattle.build_groups.specs.Places.{places_of_names};

// The names in the first n words of the window; all names, each once and rising, in the next n; in the last n of each vertex the place of its group. Returns how many groups there
// are. A name is met before the other vertices of its group, so its place is known by then.
pub fn group_list(work: &mut [u32], names: usize, n: usize, base: usize) -> usize
    requires { ListFit work.old names n base }
    ensures kept { Kept work.old work.new base (3 * n) }
    ensures upper_bound { result ≤ n }
    ensures n_after { part work.new base n ≡ part work.old names n }
    ensures result_after { part work.new (base + n) result ≡ group_list (part work.old names n) }
    ensures n_after_2 { part work.new (base + 2 * n) n ≡ places_of_names (part work.old names n) }
{
    let groups = base + n;
    let places = base + 2 * n;
    let mut k = 0;
    for v in 0..n {
        let name = work[names + v];
        let own = name as usize;
        work[base + v] = name;
        if own == v {
            work[groups + k] = name;
            work[places + v] = k as u32;
            k += 1;
        } else {
            work[places + v] = work[places + own];
        }
    }
    k
}
