// The walk: opening a group and trying its children, each told by means of the other (document 01, "A question"). It stands on the stored sections
// as they are lent; a group's mark stands at its name. A group is opened where its mark is this walk's stamp, so a later walk with a higher stamp needs no
// cleared marks.
#![tactic(auto)]

ghost use Rattle.std.specs.Prelude.{◌≡◌, ◌+◌, ◌*◌, ◌≤◌, ◌<◌, length};
ghost use Rattle.lineage.specs.Numbers.{Width, num_at};
ghost use Rattle.lineage.specs.Walk.{walked, open_at, try_at};
ghost use Rattle.ask_walk.specs.Fit.{count, all, skips, Fresh, Marks, Below};
ghost use Rattle.ask_walk.specs.Stamps.{seen_as, Under};
ghost use Rattle.ask_walk.specs.Walks.{net_of_walk};

pub mod towards;

use ask_intervals::Judged;
use towards::Towards;

// Whether the target is found, by which labelling, and how many groups were opened.
#[derive(Clone, Copy, Debug, PartialEq, Eq)]
pub struct Seen {
    pub found: bool,
    pub deciding: usize,
    pub opened: usize,
}

// How many numbers of w bytes a row holds. Each width has its own quotient, so that the machine does not divide.
fn count(row: &[u8], w: usize) -> usize
    requires { Width w }
    ensures { result ≡ count w row.now }
{
    if w == 2 { row.len() / 2 } else { row.len() / 4 }
}

// Whether h is passed over before any labelling is read: by its level, unless it is the target itself, or because it is already opened.
pub fn skipped(
    groups: &[u8],
    levels: &[u8],
    w: usize,
    t: usize,
    marks: &[u8],
    h: usize,
    stamp: u8,
) -> bool
    requires width { Width w }
    requires w_in_bounds { (w * h + w ≤ length groups.now) × ((w * h + w ≤ length levels.now) × (w * t + w ≤ length levels.now)) }
    requires h_in_bounds { num_at w groups.now h < length marks.now }
    ensures { result ≡ skips w t groups.now levels.now (seen_as stamp marks.now) h }
{
    if numbers::num(levels, w, h) <= numbers::num(levels, w, t) {
        return h != t;
    }
    let name = numbers::num(groups, w, h);
    marks[name] == stamp
}

// Opens g, of a level not above lev: it is marked and counted, then its children are tried.
#[cycle(open_group_try_children)]
pub fn open_group(walk: &Towards, marks: &mut [u8], lev: usize, g: usize, stamp: u8) -> Seen
    requires marks_long { length marks.old ≡ walk.now.marks }
    requires fresh { Fresh (net_of_walk walk.now) walk.now.width walk.now.k lev stamp walk.now.groups.now walk.now.levels.now marks.old g }
    requires marks { Marks (net_of_walk walk.now) walk.now.k stamp marks.old }
    ensures marks_after { walked result.found result.deciding result.opened (seen_as stamp marks.new) ≡ open_at (net_of_walk walk.now) (lev + 1) g (seen_as stamp marks.old) }
    ensures under { Under (stamp + 1) marks.new }
{
    let w = walk.width;
    let name = numbers::num(walk.groups, w, g);
    marks[name] = stamp;
    let row = stored::parts::children_of(walk.starts, walk.children, w, g);
    let a = try_children(walk, row, marks, lev, stamp);
    Seen {
        found: a.found,
        deciding: a.deciding,
        opened: 1 + a.opened,
    }
}

// Tries the children of a row, all of levels below lev: rule 2 ends the whole walk with yes; a child already opened, or ruled out, is passed over; any
// other is opened in its turn. Level and mark are looked at first, then the labellings until one decides either way: on a sound index rule 2 says yes of no
// child that is opened or ruled out, but of the target itself, so the order cannot be seen. What the walk goes by is read where it is used: in locals the machine would
// save and load it about each row.
#[cycle(open_group_try_children)]
pub fn try_children(walk: &Towards, row: &[u8], marks: &mut [u8], lev: usize, stamp: u8) -> Seen
    requires marks_long { length marks.old ≡ walk.now.marks }
    requires below { Below walk.now.width walk.now.k lev walk.now.levels.now row.now }
    requires marks { Marks (net_of_walk walk.now) walk.now.k stamp marks.old }
    ensures marks_after { walked result.found result.deciding result.opened (seen_as stamp marks.new) ≡ try_at (net_of_walk walk.now) lev (all walk.now.width row.now) (seen_as stamp marks.old) }
    ensures under { Under (stamp + 1) marks.new }
{
    let mut opened = 0;
    for i in 0..count(row, walk.width) {
        let h = numbers::num(row, walk.width, i);
        if !skipped(
            walk.groups,
            walk.levels,
            walk.width,
            walk.t,
            marks,
            h,
            stamp,
        ) {
            match walk.judge(h) {
                Judged::Inside(deciding) => {
                    return Seen {
                        found: true,
                        deciding,
                        opened,
                    };
                }
                Judged::Outside(_) => {}
                Judged::Neither => {
                    let a = open_group(walk, marks, lev - 1, h, stamp);
                    opened += a.opened;
                    if a.found {
                        return Seen {
                            found: true,
                            deciding: a.deciding,
                            opened,
                        };
                    }
                }
            }
        }
    }
    Seen {
        found: false,
        deciding: 0,
        opened,
    }
}
