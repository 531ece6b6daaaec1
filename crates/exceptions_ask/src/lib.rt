// A question by exception lists that belong to the index: the target's group is reached exactly where the source's contains it and does not list it. No group is opened.
#![tactic(auto)]

ghost use Rattle.std.specs.Prelude.{not, ◌&&◌, ◌≡◌, ◌≤◌, ◌<◌};
ghost use Rattle.lineage.specs.Question.{outside, some_labelling};
ghost use Rattle.lineage.specs.Calls.{index_in};
ghost use Rattle.laws_exceptions.specs.Exceptions.{encode_exceptions, says_by_exceptions};
ghost use Rattle.exceptions_marks.specs.Marks.{labels_of};
ghost use Rattle.exceptions_ask.specs.Listed.{list_in, has_place, ListIn};

use exceptions_marks::contains;
use numbers::{count_below, num, numbers_from};
use sound_places::SoundImage;
use stored::reading::Labels;

// Whether list x of stored lists has place y. Entries rise, and half of an entry is its place: so it is found by halves.
fn is_listed(lists: &[u8], k: usize, x: usize, y: usize) -> bool
    requires list_in { ListIn lists.now k x }
    requires y_lt_k { y < k }
    ensures { result ≡ has_place y (list_in lists.now k x) }
{
    let start = num(lists, 4, x + 2);
    let len = num(lists, 4, x + 3) - start;
    let list = numbers_from(lists, 4, k + 3 + start, len);
    let j = count_below(list, 4, len, 2 * y, 0, len);
    if j == len {
        return false;
    }
    num(list, 4, j) / 2 == y
}

// Whether group x reaches group y, by place: it contains it and does not list it.
pub fn reaches(labels: &Labels, lists: &[u8], x: usize, y: usize) -> bool
    requires x_lt_k { (x < labels.now.k) × (y < labels.now.k) }
    requires list_in { ListIn lists.now labels.now.k x }
    ensures { result ≡ (not (some_labelling (outside x y) (labels_of labels.now)) && not (has_place y (list_in lists.now labels.now.k x))) }
{
    contains(labels, x, y) && !is_listed(lists, labels.k, x, y)
}

// Whether vertex u reaches vertex v.
pub fn says(index: &SoundImage, lists: &[u8], u: usize, v: usize) -> bool
    requires u_lt_n { (u < index.now.image.layout.n) × ((v < index.now.image.layout.n) × (index.now.image.layout.k ≤ 4096)) }
    requires lists_value { lists.now ≡ encode_exceptions (index_in index.now.image.bytes.now) }
    ensures { result ≡ says_by_exceptions (index_in index.now.image.bytes.now) u v }
{
    let l = index.image.layout;
    let labels = Labels {
        bytes: index.image.labels(),
        width: l.width,
        z: l.stride,
        k: l.k,
        d: l.d,
    };
    let x = index.place(u);
    let y = index.place(v);
    reaches(&labels, lists, x, y)
}
