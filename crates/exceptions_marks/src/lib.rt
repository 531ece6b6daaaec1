// The exceptions of one group, told by marks: what it reaches is swept, and of the other groups whose ranks lie in its outer interval those that it contains in every
// labelling are its exceptions.
#![tactic(auto)]

ghost use Rattle.std.specs.Prelude.{false, not, cond, ◌≡◌, ◌≤◌, ◌<◌, eqb, length};
ghost use Rattle.lineage.specs.Lists.{cleared};
ghost use Rattle.lineage.specs.Question.{outside, some_labelling};
ghost use Rattle.lineage.specs.Calls.{index_in};
ghost use Rattle.laws_exceptions.specs.Exceptions.{exceptions_of};
ghost use Rattle.exceptions_marks.specs.Marks.{labels_of, lies_in, Reaching, Excepting};

use numbers::num;
use sound_places::SoundImage;
use sound_ranks::reading::TuplesByPlace;
use stored::reading::Labels;

// What x reaches is marked 1, and its exceptions 2.
pub const REACHED: u8 = 1;

pub const EXCEPTED: u8 = 2;

// Whether y's outer interval lies in x's, in the labelling of these numbers by place.
fn lies_in(tuples: &TuplesByPlace, x: usize, y: usize) -> bool
    requires { (x < tuples.now.k) × (y < tuples.now.k) }
    ensures { result ≡ lies_in tuples.now.width tuples.now.z tuples.now.bytes.now x y }
{
    tuples.s(x) <= tuples.s(y) && tuples.e(y) <= tuples.e(x)
}

// Whether group x contains group y: y's outer interval lies in x's in every labelling.
pub fn contains(labels: &Labels, x: usize, y: usize) -> bool
    requires { (x < labels.now.k) × (y < labels.now.k) }
    ensures { result ≡ not (some_labelling (outside x y) (labels_of labels.now)) }
{
    for l in 0..labels.d {
        let tuples = TuplesByPlace::of(labels, l);
        if !lies_in(&tuples, x, y) {
            return false;
        }
    }
    true
}

// Whether group y, whose mark says whether x reaches it, is an exception of x.
fn is_exception(labels: &Labels, x: usize, y: usize, mark: u8) -> bool
    requires { (x < labels.now.k) × (y < labels.now.k) }
    ensures { result ≡ cond (eqb mark 1) false (not (some_labelling (outside x y) (labels_of labels.now))) }
{
    mark != REACHED && contains(labels, x, y)
}

// Marks the exceptions of x, where what it reaches is marked; how many they are. It goes through the ranks of x's outer interval in the first labelling: all that x
// contains has its rank there.
fn mark_contained(index: &SoundImage, marks: &mut [u8], x: usize) -> usize
    requires n_in_bounds { (index.now.image.layout.n ≤ length marks.old) × (x < index.now.image.layout.k) }
    requires reaching { Reaching (index_in index.now.image.bytes.now) x marks.old }
    ensures value { result ≡ length (exceptions_of (index_in index.now.image.bytes.now) x) }
    ensures excepting { Excepting (index_in index.now.image.bytes.now) x marks.old marks.new }
{
    let l = index.image.layout;
    let w = l.width;
    let groups = index.image.groups();
    let labels = Labels {
        bytes: index.image.labels(),
        width: w,
        z: l.stride,
        k: l.k,
        d: l.d,
    };
    let tuples = TuplesByPlace::of(&labels, 0);
    let places = labels.by_rank(0);
    let from = tuples.s(x) - 1;
    let ranks = tuples.e(x) - from;
    let mut count = 0;
    for i in 0..ranks {
        let y = num(places, w, from + i);
        let name = num(groups, w, y);
        if is_exception(&labels, x, y, marks[name]) {
            marks[name] = EXCEPTED;
            count += 1;
        }
    }
    count
}

// Marks what group x reaches and its exceptions, on marks that are 0 below n; how many exceptions there are.
pub fn mark_exceptions(index: &SoundImage, marks: &mut [u8], x: usize) -> usize
    requires n_in_bounds { (index.now.image.layout.n ≤ length marks.old) × (x < index.now.image.layout.k) }
    requires marks_value { marks.old ≡ cleared index.now.image.layout.n marks.old }
    ensures value { result ≡ length (exceptions_of (index_in index.now.image.bytes.now) x) }
    ensures excepting { Excepting (index_in index.now.image.bytes.now) x marks.old marks.new }
{
    let groups = index.image.groups();
    let name = num(groups, index.image.layout.width, x);
    reach::mark_reached(index, marks, name);
    mark_contained(index, marks, x)
}
