// What is reached in stored bytes whose contents are sound: a vertex's group is marked, and the sweep, by the first labelling, marks all that marked groups reach.
#![tactic(auto)]

ghost use Rattle.std.specs.Prelude.{◌≡◌, ◌≤◌, ◌<◌, length};
ghost use Rattle.lineage.specs.Lists.{cleared};
ghost use Rattle.lineage.specs.Calls.{index_in};
ghost use Rattle.reach.specs.Fit.{RanksOf};
ghost use Rattle.reach.specs.Marks.{rank_in, mark_in, swept_in, reach_marks};

use numbers::num;
use reach_sweep::groups::{Groups, Ranks};
use sound_places::SoundImage;
use sound_ranks::reading::TuplesByPlace;
use stored::reading::{Labels, Numbers, Rows};

// The rank of vertex u's group in the first labelling.
fn rank_of(index: &SoundImage, u: usize) -> usize
    requires { u < index.now.image.layout.n }
    ensures { result ≡ rank_in (index_in index.now.image.bytes.now) u }
{
    let l = index.image.layout;
    let labels = Labels {
        bytes: index.image.labels(),
        width: l.width,
        z: l.stride,
        k: l.k,
        d: l.d,
    };
    let tuples = TuplesByPlace::of(&labels, 0);
    tuples.e(index.place(u))
}

// Marks the group of vertex u, whatever else is marked.
pub fn mark_group(index: &SoundImage, marks: &mut [u8], u: usize)
    requires { (index.now.image.layout.n ≤ length marks.old) × (u < index.now.image.layout.n) }
    ensures { marks.new ≡ mark_in (index_in index.now.image.bytes.now) u marks.old }
{
    let names = index.image.names();
    let name = num(names, index.image.layout.width, u);
    marks[name] = 1;
}

// The groups of sound bytes, and their places by rank in the first labelling.
pub fn ranks_of<'a>(index: &SoundImage<'a>) -> Ranks<'a>
    ensures { RanksOf (index_in index.now.image.bytes.now) index.now.image.layout.k result }
{
    let l = index.image.layout;
    let w = l.width;
    let k = l.k;
    let names = Numbers {
        bytes: index.image.groups(),
        width: w,
        len: k,
    };
    let rows = Rows {
        starts: index.image.starts(),
        children: index.image.children(),
        width: w,
        k,
        c: l.c,
    };
    let labels = Labels {
        bytes: index.image.labels(),
        width: w,
        z: l.stride,
        k,
        d: l.d,
    };
    let places = Numbers {
        bytes: labels.by_rank(0),
        width: w,
        len: k,
    };
    Ranks {
        groups: Groups { names, rows },
        places,
    }
}

// The sweep from rank `top` down: afterwards a group is marked exactly where it is reached from one marked before.
pub fn sweep_down(index: &SoundImage, marks: &mut [u8], top: usize)
    requires { (index.now.image.layout.n ≤ length marks.old) × (top ≤ index.now.image.layout.k) }
    ensures { marks.new ≡ swept_in (index_in index.now.image.bytes.now) top marks.old }
{
    reach_sweep::sweep(&ranks_of(index), marks, top);
}

// Marks the groups that vertex u's group reaches, on marks that are 0 below n.
pub fn mark_reached(index: &SoundImage, marks: &mut [u8], u: usize)
    requires n_in_bounds { (index.now.image.layout.n ≤ length marks.old) × (u < index.now.image.layout.n) }
    requires marks_value { marks.old ≡ cleared index.now.image.layout.n marks.old }
    ensures { marks.new ≡ reach_marks (index_in index.now.image.bytes.now) u marks.old }
{
    mark_group(index, marks, u);
    let top = rank_of(index, u);
    sweep_down(index, marks, top);
}
