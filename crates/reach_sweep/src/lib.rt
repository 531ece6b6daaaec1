// The downward sweep: through the places by rank, from a highest rank down to 1, each marked group marks its children. Children have lower ranks than
// their group, so one pass marks all that is reached from the groups marked before. A group's mark stands at its name.
#![tactic(auto)]

ghost use Rattle.std.specs.Prelude.{[], ◌≡◌, ◌≤◌, ◌<◌, length, get_or};
ghost use Rattle.stored.specs.Reading.{numbers_of};
ghost use Rattle.reach_sweep.specs.Sweep.{row_marked, swept};
ghost use Rattle.reach_sweep.specs.Fit.{names_of, children_of, Spots};

pub mod groups;

use groups::{Groups, Ranks};

// Marks the children of the group at place p.
fn mark_children(groups: &Groups, marks: &mut [u8], p: usize)
    requires spots { Spots groups.now (length marks.old) }
    requires p_lt_k { p < groups.now.rows.k }
    ensures { marks.new ≡ row_marked (names_of groups.now) (get_or (children_of groups.now) p []) marks.old }
{
    let row = groups.rows.row(p);
    for i in 0..row.len {
        let q = row.get(i);
        let name = groups.names.get(q);
        marks[name] = 1;
    }
}

// The sweep from rank `top` down: afterwards a group is marked exactly where it is reached from one marked before.
pub fn sweep(ranks: &Ranks, marks: &mut [u8], top: usize)
    requires spots { Spots ranks.now.groups (length marks.old) }
    requires top_le_k { top ≤ ranks.now.groups.rows.k }
    ensures { marks.new ≡ swept (names_of ranks.now.groups) (children_of ranks.now.groups) (numbers_of ranks.now.places) top marks.old }
{
    for r in (0..top).rev() {
        let p = ranks.places.get(r);
        let name = ranks.groups.names.get(p);
        if marks[name] == 1 {
            mark_children(&ranks.groups, marks, p);
        }
    }
}
