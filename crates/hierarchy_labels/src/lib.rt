// The labels of a plain hierarchy, which have one labelling (document 02, [14]): the rules 1 to 4 over pairs s, e; and labels in triples written in pairs, or in pairs
// written in triples.
#![tactic(auto)]

ghost use Rattle.std.specs.Prelude.{map, ◌≡◌};
ghost use Rattle.lineage.specs.Lists.{upto, joined};
ghost use Rattle.lineage.specs.Numbers.{written};
ghost use Rattle.lineage.specs.Stored.{label_numbers};
ghost use Rattle.numbers.specs.Put.{put};
ghost use Rattle.hierarchy_labels.specs.Pairs.{Pairs, Decides};
ghost use Rattle.hierarchy_labels.specs.Turned.{label_from, labelling_of, ByPlace, Turns};

use numbers::{bytes_of, num};
use sound_ranks::reading::TuplesByPlace;
use stored::reading::Labels;

// The reason for the answer between two groups by place: the first of the rules 1 to 4 that holds. In a pair the inner interval is the outer one, so 4 holds where the
// others fail.
pub fn decide(levels: &[u8], labels: &[u8], w: usize, k: usize, x: usize, t: usize) -> u32
    requires { Pairs w k x t levels.now labels.now }
    ensures { Decides w k x t levels.now labels.now result }
{
    if x == t {
        return 1;
    }
    let all = Labels {
        bytes: labels,
        width: w,
        z: 2,
        k,
        d: 1,
    };
    let pairs = TuplesByPlace::of(&all, 0);
    let e = pairs.e(t);
    let s = pairs.s(x);
    let top = pairs.e(x);
    if (s <= e) & (e <= top) {
        return 2;
    }
    if num(levels, w, x) <= num(levels, w, t) {
        return 3;
    }
    4
}

// Writes the labels of all groups by place, y numbers of each, from position at on.
fn write_by_place(out: &mut [u8], at: usize, tuples: &TuplesByPlace, y: usize)
    requires { ByPlace out.old at tuples.now y }
    ensures { out.new ≡ put out.old at (written tuples.now.width (joined (map (label_from tuples.now.width tuples.now.z y tuples.now.bytes.now) (upto tuples.now.k)))) }
{
    let w = tuples.width;
    for p in 0..tuples.k {
        let s = tuples.s(p);
        let m = tuples.m(p);
        let e = tuples.e(p);
        build_writing::write_label(out, at + w * (y * p), w, y, s as u32, m as u32, e as u32);
    }
}

// Writes the one labelling that labels hold from position at on, y numbers of each group by place and then the places by rank.
pub fn write_turned(out: &mut [u8], at: usize, labels: &Labels, y: usize)
    requires { Turns out.old at labels.now y }
    ensures { out.new ≡ put out.old at (written labels.now.width (label_numbers y labels.now.k (labelling_of labels.now.width labels.now.z labels.now.bytes.now labels.now.k))) }
{
    let w = labels.width;
    let k = labels.k;
    let tuples = TuplesByPlace::of(labels, 0);
    let places = labels.by_rank(0);
    let behind = at + bytes_of(w, y * k);
    write_by_place(out, at, &tuples, y);
    numbers::copy_numbers(out, behind, w, places, w, k)
}
