// Who is somebody's child, told by marks; and where no group may be a child of two others, whether one is. A group stands once in a row, so it has as many parents as child
// entries.
#![tactic(auto)]

ghost use Rattle.std.specs.Prelude.{not, ◌||◌, ◌≡◌, ◌≤◌, eqb, length};
ghost use Rattle.lineage.specs.Lists.{upto, any, first_of, cleared};
ghost use Rattle.numbers.specs.Marks.{mark_all};
ghost use Rattle.numbers.specs.Found.{found_below};
ghost use Rattle.stored.specs.Reading.{numbers_of};
ghost use Rattle.sound_parents.specs.Fit.{Within};
ghost use Rattle.sound_parents.specs.Told.{one_more, count_all, marked_twice, twice, tell_all};

use numbers::clear_marks;
use stored::reading::Numbers;

// Marks every child: sets the mark of each child entry to 1.
fn mark_children(children: &Numbers, marks: &mut [u8])
    requires { Within (numbers_of children.now) (length marks.old) }
    ensures { marks.new ≡ mark_all (numbers_of children.now) marks.old }
{
    for j in 0..children.len {
        let q = children.get(j);
        marks[q] = 1;
    }
}

// A mark with one entry more: 1 for the first, 2 from the second on.
fn one_more(mark: u8) -> u8
    ensures { result ≡ one_more mark }
{
    if mark == 0 { 1 } else { 2 }
}

// Counts the entries of every child, up to 2, in its mark.
fn count_children(children: &Numbers, marks: &mut [u8])
    requires { Within (numbers_of children.now) (length marks.old) }
    ensures { marks.new ≡ count_all (numbers_of children.now) marks.old }
{
    for j in 0..children.len {
        let q = children.get(j);
        marks[q] = one_more(marks[q]);
    }
}

// The first of k marks that is 2.
fn first_twice(marks: &[u8], k: usize) -> Option<usize>
    requires { k ≤ length marks.now }
    ensures { result ≡ found_below k (first_of (marked_twice marks.now) (upto k) k) }
{
    marks[..k].iter().position(|mark| *mark == 2)
}

// Tells by marks, 0 before, who of k groups is somebody's child; and whether, where labels are in pairs, no group is a child of two others.
pub fn parents_pass(children: &Numbers, marks: &mut [u8], z: usize, n: usize, k: usize) -> bool
    requires within { Within (numbers_of children.now) k }
    requires k_le_n { (k ≤ n) × (n ≤ length marks.old) }
    ensures value { result ≡ (not (eqb z 2) || not (any (twice (numbers_of children.now)) (upto k))) }
    ensures marks_after { marks.new ≡ tell_all z (numbers_of children.now) (cleared n marks.old) }
{
    clear_marks(marks, n);
    if z == 2 {
        count_children(children, marks);
        return first_twice(marks, k).is_none();
    }
    mark_children(children, marks);
    true
}

// The first of k groups by place that is a child of two others. Marks below n are 0 afterwards.
pub fn first_shared(children: &Numbers, marks: &mut [u8], n: usize, k: usize) -> Option<usize>
    requires within { Within (numbers_of children.now) k }
    requires k_le_n { (k ≤ n) × (n ≤ length marks.old) }
    ensures value { result ≡ found_below k (first_of (twice (numbers_of children.now)) (upto k) k) }
    ensures marks_after { marks.new ≡ cleared n marks.old }
{
    clear_marks(marks, n);
    count_children(children, marks);
    let first = first_twice(marks, k);
    clear_marks(marks, n);
    first
}
