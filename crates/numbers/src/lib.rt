// Little-endian numbers of w bytes in lent bytes, w being 2 or 4; and lent memory set to 0.
#![tactic(auto)]

ghost use Rattle.std.specs.Prelude.{◌≡◌, ◌+◌, ◌*◌, ◌^◌, ◌≤◌, ◌<◌, length, replicate};
ghost use Rattle.lineage.specs.Lists.{part, cleared};
ghost use Rattle.lineage.specs.Numbers.{Width, le_at, num_at, numbers, le_bytes, written};
ghost use Rattle.laws.specs.Rising.{Rises, count_below};
ghost use Rattle.numbers.specs.Put.{put};
ghost use Rattle.numbers.specs.Regions.{Kept, Part};

// The bytes that so many numbers of w bytes take.
pub fn bytes_of(w: usize, count: usize) -> usize
    requires width { Width w }
    requires count_bound { count < 2 ^ 32 }
    ensures { (result ≡ w * count) × (result ≤ 4 * count) }
{
    w * count
}

// The number that the two bytes from position p on make.
fn pair(s: &[u8], p: usize) -> usize
    requires { p + 2 ≤ length s.now }
    ensures { (result ≡ le_at 2 s.now p) × (result < 65536) }
{
    s[p] as usize + 256 * s[p + 1] as usize
}

// Number i of a stretch of numbers of w bytes. Each width has its own product, so that the machine multiplies by a number that it knows.
pub fn num(s: &[u8], w: usize, i: usize) -> usize
    requires width { Width w }
    requires w_in_bounds { w * i + w ≤ length s.now }
    ensures { (result ≡ num_at w s.now i) × (result < 2 ^ 32) }
{
    if w == 2 {
        return pair(s, 2 * i);
    }
    let p = 4 * i;
    pair(s, p) + 65536 * pair(s, p + 2)
}

// The part that holds count numbers from number `from` on.
pub fn numbers_from(s: &[u8], w: usize, from: usize, count: usize) -> &[u8]
    requires width { Width w }
    requires count_bound { (from + count < 2 ^ 32) × (w * (from + count) ≤ length s.now) }
    ensures { Part s.now (w * from) (w * count) result.now }
{
    let start = bytes_of(w, from);
    let end = bytes_of(w, from + count);
    &s[start..end]
}

// How many of the first k numbers of a rising stretch are below x, where that is from `low` to `high`: found by halves.
pub fn count_below(s: &[u8], w: usize, k: usize, x: usize, low: usize, high: usize) -> usize
    requires width { Width w }
    requires k_in_bounds { w * k ≤ length s.now }
    requires rises { Rises (numbers w s.now k) }
    requires low_bound { (low ≤ count_below x (numbers w s.now k)) × ((count_below x (numbers w s.now k) ≤ high) × (high ≤ k)) }
    ensures { result ≡ count_below x (numbers w s.now k) }
{
    let mut from = low;
    let mut to = high;
    while from < to {
        let half = from + (to - from) / 2;
        if num(s, w, half) < x {
            from = half + 1;
        } else {
            to = half;
        }
    }
    from
}

// Writes v, its lowest w bytes, from position p on.
pub fn put_at(out: &mut [u8], p: usize, w: usize, v: usize)
    requires width { Width w }
    requires w_in_bounds { p + w ≤ length out.old }
    ensures { out.new ≡ put out.old p (le_bytes w v) }
{
    let v1 = v / 256;
    out[p] = (v % 256) as u8;
    out[p + 1] = (v1 % 256) as u8;
    if w == 2 {
        return;
    }
    let v2 = v1 / 256;
    let v3 = v2 / 256;
    out[p + 2] = (v2 % 256) as u8;
    out[p + 3] = (v3 % 256) as u8;
}

// Writes words as numbers of w bytes one after the other, from position at on.
pub fn write_words(out: &mut [u8], at: usize, w: usize, words: &[u32])
    requires width { Width w }
    requires words_in_bounds { at + w * length words.now ≤ length out.old }
    ensures { out.new ≡ put out.old at (written w words.now) }
{
    let mut p = at;
    for word in words {
        put_at(out, p, w, *word as usize);
        p += w;
    }
}

// Writes count numbers of w bytes, read from a part, as numbers of v bytes one after the other, from position at on.
pub fn copy_numbers(out: &mut [u8], at: usize, v: usize, from: &[u8], w: usize, count: usize)
    requires width { Width v }
    requires width_2 { Width w }
    requires count_in_bounds { (at + v * count ≤ length out.old) × (w * count ≤ length from.now) }
    ensures { out.new ≡ put out.old at (written v (numbers w from.now count)) }
{
    let mut p = at;
    for i in 0..count {
        put_at(out, p, v, num(from, w, i));
        p += v;
    }
}

// Sets n words to 0, from word at on.
pub fn clear_part(words: &mut [u32], at: usize, n: usize)
    requires { at + n ≤ length words.old }
    ensures kept { Kept words.old words.new at n }
    ensures n_after { part words.new at n ≡ replicate n 0 }
{
    words[at..at + n].fill(0)
}

// Sets the first n words to 0.
pub fn clear_words(words: &mut [u32], n: usize)
    requires { n ≤ length words.old }
    ensures { words.new ≡ cleared n words.old }
{
    clear_part(words, 0, n)
}

// Sets the marks below n to 0.
pub fn clear_marks(marks: &mut [u8], n: usize)
    requires { n ≤ length marks.old }
    ensures { marks.new ≡ cleared n marks.old }
{
    marks[..n].fill(0)
}
