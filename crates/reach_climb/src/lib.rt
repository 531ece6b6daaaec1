// The climb: through the places by rank, from the lowest rank up, a group with a marked child is marked. Children have lower ranks than their group, so
// one pass marks all groups that reach one marked before. A group's mark stands at its name.
#![tactic(auto)]

ghost use Rattle.std.specs.Prelude.{[], ◌≡◌, ◌<◌, length, get_or};
ghost use Rattle.std.specs.List.{find};
ghost use Rattle.stored.specs.Reading.{numbers_of};
ghost use Rattle.reach_sweep.specs.Sweep.{marked};
ghost use Rattle.reach_sweep.specs.Fit.{names_of, children_of, Spots};
ghost use Rattle.reach_climb.specs.Climb.{climbed};

use reach_sweep::groups::{Groups, Ranks};

// The lowest marked child of the group at place p.
pub fn lowest_marked(groups: &Groups, marks: &[u8], p: usize) -> Option<usize>
    requires spots { Spots groups.now (length marks.now) }
    requires p_lt_k { p < groups.now.rows.k }
    ensures { result ≡ find (marked (names_of groups.now) marks.now) (get_or (children_of groups.now) p []) }
{
    let row = groups.rows.row(p);
    for i in 0..row.len {
        let q = row.get(i);
        let name = groups.names.get(q);
        if marks[name] == 1 {
            return Some(q);
        }
    }
    None
}

// The climb through all ranks: afterwards a group is marked exactly where it reaches one marked before.
pub fn climb(ranks: &Ranks, marks: &mut [u8])
    requires { Spots ranks.now.groups (length marks.old) }
    ensures { marks.new ≡ climbed (names_of ranks.now.groups) (children_of ranks.now.groups) (numbers_of ranks.now.places) ranks.now.groups.rows.k marks.old }
{
    let k = ranks.groups.rows.k;
    for r in 0..k {
        let p = ranks.places.get(r);
        if lowest_marked(&ranks.groups, marks, p).is_some() {
            let name = ranks.groups.names.get(p);
            marks[name] = 1;
        }
    }
}
