// The list of one group, told from marks: its entries, rising by place, counted, written, and compared with stored ones.
#![tactic(auto)]

ghost use Rattle.std.specs.Prelude.{◌≡◌, ◌+◌, ◌*◌, ◌≤◌, ◌<◌, length};
ghost use Rattle.lineage.specs.Lists.{cleared};
ghost use Rattle.lineage.specs.Numbers.{written};
ghost use Rattle.lineage.specs.Calls.{index_in};
ghost use Rattle.laws_exceptions.specs.Exceptions.{is_indirect, entry, exceptions_of, entries_of};
ghost use Rattle.numbers.specs.Put.{put};
ghost use Rattle.stored.specs.Reading.{rows_of};
ghost use Rattle.stored.specs.Sections.{Section};
ghost use Rattle.exceptions_marks.specs.Marks.{labels_of, Excepted};
ghost use Rattle.exceptions_rows.specs.Rows.{kinds_alone, entry_told, agrees, stands, compared};

use exceptions_marks::{EXCEPTED, contains, mark_exceptions};
use numbers::{clear_marks, num, put_at};
use sound_places::SoundImage;
use sound_ranks::reading::PlacedRows;
use stored::reading::{Labels, Rows};

// Whether exception y of x is indirect: under one labelling, where some child of x contains it.
fn is_indirect(below: &PlacedRows, labels: &Labels, x: usize, y: usize) -> bool
    requires { (below.now.rows.k ≡ labels.now.k) × ((x < labels.now.k) × (y < labels.now.k)) }
    ensures { result ≡ is_indirect (kinds_alone (rows_of below.now.rows) (labels_of labels.now)) x y }
{
    if labels.d != 1 {
        return false;
    }
    let children = below.rows.row(x);
    for i in 0..children.len {
        if contains(labels, children.get(i), y) {
            return true;
        }
    }
    false
}

// The entry of exception y in x's list: twice the place, plus 1 for an indirect one. Inlined with `entry_at`, so that the loops over all places make no call and cut no
// section.
#[inline(always)]
fn entry_of(below: &PlacedRows, labels: &Labels, x: usize, y: usize) -> usize
    requires { (below.now.rows.k ≡ labels.now.k) × ((x < labels.now.k) × (y < labels.now.k)) }
    ensures { result ≡ entry (kinds_alone (rows_of below.now.rows) (labels_of labels.now)) x y }
{
    if is_indirect(below, labels, x, y) {
        return 2 * y + 1;
    }
    2 * y
}

// The entry of place y in the list of x, whose exceptions are marked; none where it is no exception.
#[inline(always)]
fn entry_at(index: &SoundImage, groups: &[u8], marks: &[u8], x: usize, y: usize) -> Option<usize>
    requires groups_in { Section index.now.image.bytes.now index.now.image.layout 1 groups.now }
    requires n_in_bounds { (index.now.image.layout.n ≤ length marks.now) × ((x < index.now.image.layout.k) × Excepted (index_in index.now.image.bytes.now) x marks.now) }
    requires y_lt_k { y < index.now.image.layout.k }
    ensures { result ≡ entry_told (index_in index.now.image.bytes.now) x y }
{
    let l = index.image.layout;
    let name = num(groups, l.width, y);
    if marks[name] != EXCEPTED {
        return None;
    }
    let rows = Rows {
        starts: index.image.starts(),
        children: index.image.children(),
        width: l.width,
        k: l.k,
        c: l.c,
    };
    let labels = Labels {
        bytes: index.image.labels(),
        width: l.width,
        z: l.stride,
        k: l.k,
        d: l.d,
    };
    Some(entry_of(&PlacedRows { rows }, &labels, x, y))
}

// Writes the entries of x, whose exceptions are marked, from number `from` on.
fn write_marked(index: &SoundImage, marks: &[u8], x: usize, out: &mut [u8], from: usize)
    requires n_in_bounds { (index.now.image.layout.n ≤ length marks.now) × ((x < index.now.image.layout.k) × Excepted (index_in index.now.image.bytes.now) x marks.now) }
    requires x_in_bounds { 4 * (from + length (entries_of (index_in index.now.image.bytes.now) x)) ≤ length out.old }
    ensures { out.new ≡ put out.old (4 * from) (written 4 (entries_of (index_in index.now.image.bytes.now) x)) }
{
    let groups = index.image.groups();
    let mut at = from;
    for y in 0..index.image.layout.k {
        if let Some(v) = entry_at(index, groups, marks, x, y) {
            put_at(out, 4 * at, 4, v);
            at += 1;
        }
    }
}

// Whether the stored numbers from number `from` on are the entries of x, whose exceptions are marked.
fn match_marked(index: &SoundImage, marks: &[u8], x: usize, lists: &[u8], from: usize) -> bool
    requires n_in_bounds { (index.now.image.layout.n ≤ length marks.now) × ((x < index.now.image.layout.k) × Excepted (index_in index.now.image.bytes.now) x marks.now) }
    requires x_in_bounds { 4 * (from + length (entries_of (index_in index.now.image.bytes.now) x)) ≤ length lists.now }
    ensures { result ≡ agrees lists.now from (entries_of (index_in index.now.image.bytes.now) x) }
{
    let groups = index.image.groups();
    let mut at = from;
    for y in 0..index.image.layout.k {
        if let Some(v) = entry_at(index, groups, marks, x, y) {
            if num(lists, 4, at) != v {
                return false;
            }
            at += 1;
        }
    }
    true
}

// How many exceptions x has. The marks are 0 below n, and are so afterwards.
pub fn count_row(index: &SoundImage, marks: &mut [u8], x: usize) -> usize
    requires n_in_bounds { (index.now.image.layout.n ≤ length marks.old) × (x < index.now.image.layout.k) }
    requires marks_value { marks.old ≡ cleared index.now.image.layout.n marks.old }
    ensures value { result ≡ length (entries_of (index_in index.now.image.bytes.now) x) }
    ensures marks_unchanged { marks.new ≡ marks.old }
{
    let count = mark_exceptions(index, marks, x);
    clear_marks(marks, index.image.layout.n);
    count
}

// Writes the list of x from number `at` on; where the next one begins.
pub fn write_row(index: &SoundImage, marks: &mut [u8], x: usize, out: &mut [u8], at: usize) -> usize
    requires n_in_bounds { (index.now.image.layout.n ≤ length marks.old) × (x < index.now.image.layout.k) }
    requires marks_value { marks.old ≡ cleared index.now.image.layout.n marks.old }
    requires x_in_bounds { 4 * (at + length (entries_of (index_in index.now.image.bytes.now) x)) ≤ length out.old }
    ensures value { result ≡ at + length (entries_of (index_in index.now.image.bytes.now) x) }
    ensures out_after { out.new ≡ put out.old (4 * at) (written 4 (entries_of (index_in index.now.image.bytes.now) x)) }
    ensures marks_unchanged { marks.new ≡ marks.old }
{
    let count = mark_exceptions(index, marks, x);
    if count != 0 {
        write_marked(index, marks, x, out, at);
    }
    clear_marks(marks, index.image.layout.n);
    at + count
}

// Whether the stored numbers from number `at` on, of which there are `most` in all, are the entries of x, whose exceptions are marked and counted.
fn marked_matches(
    index: &SoundImage,
    marks: &[u8],
    x: usize,
    lists: &[u8],
    at: usize,
    most: usize,
    count: usize,
) -> bool
    requires n_in_bounds { (index.now.image.layout.n ≤ length marks.now) × ((x < index.now.image.layout.k) × Excepted (index_in index.now.image.bytes.now) x marks.now) }
    requires at_le_most { (at ≤ most) × (4 * most ≤ length lists.now) }
    requires count_value { count ≡ length (exceptions_of (index_in index.now.image.bytes.now) x) }
    ensures { result ≡ stands lists.now at most (entries_of (index_in index.now.image.bytes.now) x) }
{
    if most - at < count {
        return false;
    }
    if count == 0 {
        return true;
    }
    match_marked(index, marks, x, lists, at)
}

// Compares the list of x with the stored numbers from number `at` on, of which there are `most` in all.
pub fn match_row(
    index: &SoundImage,
    marks: &mut [u8],
    x: usize,
    lists: &[u8],
    at: usize,
    most: usize,
) -> Option<usize>
    requires n_in_bounds { (index.now.image.layout.n ≤ length marks.old) × (x < index.now.image.layout.k) }
    requires marks_value { marks.old ≡ cleared index.now.image.layout.n marks.old }
    requires at_le_most { (at ≤ most) × (4 * most ≤ length lists.now) }
    ensures value { result ≡ compared lists.now at most (entries_of (index_in index.now.image.bytes.now) x) }
    ensures marks_unchanged { marks.new ≡ marks.old }
{
    let count = mark_exceptions(index, marks, x);
    let same = marked_matches(index, marks, x, lists, at, most, count);
    clear_marks(marks, index.image.layout.n);
    if !same {
        return None;
    }
    Some(at + count)
}
