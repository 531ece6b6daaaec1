// The steps of the chain, where exactly the groups that reach the target are marked: each step goes to the lowest marked child.
#![tactic(auto)]

ghost use Rattle.std.specs.Prelude.{◌≡◌, suc, ◌+◌, ◌≤◌, length};
ghost use Rattle.numbers.specs.Bounds.{vertex_bound};
ghost use Rattle.numbers.specs.Put.{put};
ghost use Rattle.reach_sweep.specs.Fit.{Spots};
ghost use Rattle.chain_steps.specs.Steps.{TrailIn, steps_in, StoppedIn};

use reach_climb::lowest_marked;
use reach_sweep::groups::Groups;

// How many levels one run of nested calls goes down.
const RUN: usize = 512;

// Where a run of steps stopped: the group whose name was written last, a bound on its level, and the position behind its name.
#[derive(Clone, Copy)]
pub struct Stop {
    pub place: usize,
    pub level: usize,
    pub at: usize,
}

// Writes the name of p and calls itself on its lowest marked child, one level lower, down to the target or to the floor.
fn write_steps(
    groups: &Groups,
    marks: &[u8],
    out: &mut [u32],
    t: usize,
    p: usize,
    lev: usize,
    floor: usize,
    at: usize,
) -> Stop
    requires spots { Spots groups.now (length marks.now) }
    requires trail_in { TrailIn groups.now marks.now t p lev }
    requires p_in_bounds { at + length (steps_in groups.now marks.now t (suc lev) p) ≤ length out.old }
    ensures { StoppedIn groups.now marks.now t p lev floor at out.old out.new result.place result.level result.at }
{
    let name = groups.names.get(p);
    out[at] = name as u32;
    let behind = at + 1;
    if p == t || lev <= floor {
        return Stop {
            place: p,
            level: lev,
            at: behind,
        };
    }
    let q = lowest_marked(groups, marks, p).unwrap();
    write_steps(groups, marks, out, t, q, lev - 1, floor, behind)
}

// Writes the names from x, which is at most `lev` high, down to the target: run after run, each going on where the one before it stopped.
pub fn write_chain(groups: &Groups, marks: &[u8], out: &mut [u32], t: usize, x: usize, lev: usize)
    requires spots { Spots groups.now (length marks.now) }
    requires trail_in { TrailIn groups.now marks.now t x lev }
    requires x_in_bounds { length (steps_in groups.now marks.now t (suc lev) x) ≤ length out.old }
    ensures { out.new ≡ put out.old 0 (steps_in groups.now marks.now t (suc lev) x) }
{
    let mut place = x;
    let mut level = lev;
    let mut at = 0;
    loop {
        let stop = write_steps(
            groups,
            marks,
            out,
            t,
            place,
            level,
            level.saturating_sub(RUN),
            at,
        );
        at = stop.at;
        let last = stop.place;
        if last == t {
            return;
        }
        place = lowest_marked(groups, marks, last).unwrap();
        level = stop.level - 1;
    }
}

// How many names there are from x, which is at most `lev` high, down to the target.
pub fn count_steps(groups: &Groups, marks: &[u8], t: usize, x: usize, lev: usize) -> usize
    requires spots { Spots groups.now (length marks.now) }
    requires trail_in { TrailIn groups.now marks.now t x lev }
    requires lev_le_vertex_bound { lev ≤ vertex_bound }
    ensures { result ≡ length (steps_in groups.now marks.now t (suc lev) x) }
{
    let mut place = x;
    let mut level = lev;
    while place != t {
        place = lowest_marked(groups, marks, place).unwrap();
        level -= 1;
    }
    lev - level + 1
}
