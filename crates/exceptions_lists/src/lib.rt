// All lists of an index: counted, written, and compared with stored ones, one group after the other. The marks are 0 below n before each group, and are so afterwards.
#![tactic(auto)]

ghost use Rattle.std.specs.Prelude.{◌&&◌, ◌≡◌, [], ◌∷◌, ◌++◌, ◌+◌, ◌*◌, ◌≤◌, eqb, length};
ghost use Rattle.lineage.specs.Lists.{joined, all_below, same_list, cleared};
ghost use Rattle.lineage.specs.Numbers.{written};
ghost use Rattle.lineage.specs.Calls.{index_in};
ghost use Rattle.laws_exceptions.specs.Exceptions.{exception_rows, encode_exceptions};
ghost use Rattle.numbers.specs.Put.{put};
ghost use Rattle.exceptions_lists.specs.Lists.{entries_to, ends_to, list_stands};

use exceptions_rows::{count_row, match_row, write_row};
use numbers::{num, put_at};
use sound_places::SoundImage;

// How many entries all lists have.
pub fn count_exceptions(index: &SoundImage, marks: &mut [u8]) -> usize
    requires { (index.now.image.layout.n ≤ length marks.old) × (marks.old ≡ cleared index.now.image.layout.n marks.old) }
    ensures value { result ≡ length (joined (exception_rows (index_in index.now.image.bytes.now))) }
    ensures marks_unchanged { marks.new ≡ marks.old }
{
    let mut count = 0;
    for x in 0..index.image.layout.k {
        count += count_row(index, marks, x);
    }
    count
}

// Writes k, the number of entries and the first list's start.
fn write_head(out: &mut [u8], k: usize, entries: usize)
    requires { 12 ≤ length out.old }
    ensures { out.new ≡ put out.old 0 (written 4 (k ∷ entries ∷ 0 ∷ [])) }
{
    put_at(out, 0, 4, k);
    put_at(out, 4, 4, entries);
    put_at(out, 8, 4, 0);
}

// Writes where each list ends, counted in entries, and the lists.
fn write_lists(index: &SoundImage, marks: &mut [u8], out: &mut [u8])
    requires n_in_bounds { (index.now.image.layout.n ≤ length marks.old) × (marks.old ≡ cleared index.now.image.layout.n marks.old) }
    requires index_in_bounds { 4 * (index.now.image.layout.k + 3 + length (joined (exception_rows (index_in index.now.image.bytes.now)))) ≤ length out.old }
    ensures out_after { out.new ≡ put out.old 12 (written 4 (ends_to (index_in index.now.image.bytes.now) index.now.image.layout.k ++ joined (exception_rows (index_in index.now.image.bytes.now)))) }
    ensures marks_unchanged { marks.new ≡ marks.old }
{
    let k = index.image.layout.k;
    let first = k + 3;
    let mut at = first;
    for x in 0..k {
        at = write_row(index, marks, x, out, at);
        put_at(out, 4 * (x + 3), 4, at - first);
    }
}

// Writes the lists, of which the number of entries is given, to the front of the output.
pub fn write_exceptions(index: &SoundImage, marks: &mut [u8], out: &mut [u8], entries: usize)
    requires n_in_bounds { (index.now.image.layout.n ≤ length marks.old) × (marks.old ≡ cleared index.now.image.layout.n marks.old) }
    requires entries_value { (entries ≡ length (joined (exception_rows (index_in index.now.image.bytes.now)))) × (4 * (index.now.image.layout.k + 3 + entries) ≤ length out.old) }
    ensures out_after { out.new ≡ put out.old 0 (encode_exceptions (index_in index.now.image.bytes.now)) }
    ensures marks_unchanged { marks.new ≡ marks.old }
{
    write_head(out, index.image.layout.k, entries);
    write_lists(index, marks, out)
}

// Whether each list ends and stands in the stored numbers, of which there are `most`, as it should, and they end with the last.
fn lists_stand(index: &SoundImage, marks: &mut [u8], lists: &[u8], most: usize) -> bool
    requires n_in_bounds { (index.now.image.layout.n ≤ length marks.old) × (marks.old ≡ cleared index.now.image.layout.n marks.old) }
    requires k_bound { (index.now.image.layout.k + 3 ≤ most) × (4 * most ≤ length lists.now) }
    ensures value { result ≡ (all_below index.now.image.layout.k (list_stands (index_in index.now.image.bytes.now) lists.now (index.now.image.layout.k + 3) most) && eqb (index.now.image.layout.k + 3 + entries_to (index_in index.now.image.bytes.now) index.now.image.layout.k) most) }
    ensures marks_unchanged { marks.new ≡ marks.old }
{
    let k = index.image.layout.k;
    let first = k + 3;
    let mut at = first;
    for x in 0..k {
        let Some(next) = match_row(index, marks, x, lists, at, most) else {
            return false;
        };
        if num(lists, 4, x + 3) != next - first {
            return false;
        }
        at = next;
    }
    at == most
}

// Whether the stored bytes are the exception lists of the index. It stays a function of its own, so that a question beside this check can be measured.
#[inline(never)]
pub fn exceptions_match(index: &SoundImage, marks: &mut [u8], lists: &[u8]) -> bool
    requires n_in_bounds { (index.now.image.layout.n ≤ length marks.old) × (marks.old ≡ cleared index.now.image.layout.n marks.old) }
    requires k_bound { index.now.image.layout.k ≤ 4096 }
    ensures value { result ≡ same_list lists.now (encode_exceptions (index_in index.now.image.bytes.now)) }
    ensures marks_unchanged { marks.new ≡ marks.old }
{
    let k = index.image.layout.k;
    if lists.len() < 4 * (k + 3) {
        return false;
    }
    let most = k + 3 + num(lists, 4, 1);
    if lists.len() != 4 * most {
        return false;
    }
    if num(lists, 4, 0) != k {
        return false;
    }
    if num(lists, 4, 2) != 0 {
        return false;
    }
    lists_stand(index, marks, lists, most)
}
