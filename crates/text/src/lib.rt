// What a text says: lines of one letter, then of the next.
#![tactic(auto)]

ghost use Rattle.std.specs.Prelude.{◌≡◌, true, ◌*◌, ◌≤◌, ◌<◌, length, take};
ghost use Rattle.text_lines.specs.Reader.{is_letter};
ghost use Rattle.text.specs.Text.{most_bytes, of_pairs};
ghost use Rattle.text.specs.Blocks.{BlockInto, Lent, TextInto};

use text_lines::{Block, read_line};

// The program's bounds, and the most questions that fit a text: a line of one takes 6 bytes at least.
pub const MOST_BYTES: usize = 32768;

pub const MOST_VERTICES: usize = 512;

pub const MOST_EDGES: usize = 2000;

pub const MOST_ORDERS: usize = 5;

pub const MOST_QUESTIONS: usize = 5461;

// The lines of this letter and `size` numbers that stand first, at most `most`. Their numbers go into the list.
pub fn read_block(
    text: &[u8],
    at: usize,
    letter: u8,
    size: usize,
    most: usize,
    into: &mut [u32],
) -> Block
    requires { (is_letter letter ≡ true) × ((at ≤ length text.now) × (most * size ≤ length into.old)) }
    ensures { BlockInto text.now at letter size most result.count result.at into.new }
{
    let mut p = at;
    for i in 0..most {
        let Some(next) = read_line(text, p, letter, size, into, i * size) else {
            return Block { count: i, at: p };
        };
        p = next;
    }
    Block { count: most, at: p }
}

// Of each pair the first (k = 0) or the second (k = 1) number.
fn take_column(pairs: &[u32], k: usize, count: usize, into: &mut [u32])
    requires { (k < 2) × ((count * 2 ≤ length pairs.now) × (count ≤ length into.old)) }
    ensures { take count into.new ≡ of_pairs k (take (count * 2) pairs.now) }
{
    for i in 0..count {
        into[i] = pairs[i * 2 + k];
    }
}

// What a good text says: n, and how many edges, orders and questions the lists hold.
#[derive(Clone, Copy, Debug, PartialEq, Eq)]
pub struct Reading {
    pub n: usize,
    pub edges: usize,
    pub orders: usize,
    pub questions: usize,
}

// `v n` once, then `e from to`, then at most five `o` lines of exactly n numbers, then any number of `q source target`, and no line more.
// The error is the first bad line, from 1.
pub fn read_text(
    text: &[u8],
    sources: &mut [u32],
    targets: &mut [u32],
    orders: &mut [u32],
    asked: &mut [u32],
) -> Result<Reading, usize>
    requires text_len_bound { length text.now ≤ most_bytes }
    requires lent { Lent sources.old targets.old orders.old asked.old }
    ensures { TextInto result text.now sources.new targets.new orders.new asked.new }
{
    let mut first = [0u32; 1];
    let v = read_block(text, 0, b'v', 1, 1, &mut first);
    if v.count == 0 {
        return Err(1);
    }
    let n = first[0] as usize;
    if MOST_VERTICES < n {
        return Err(1);
    }
    let mut pairs = [0u32; 2 * MOST_EDGES];
    let e = read_block(text, v.at, b'e', 2, MOST_EDGES, &mut pairs);
    let o = read_block(text, e.at, b'o', n, MOST_ORDERS, orders);
    let q = read_block(text, o.at, b'q', 2, MOST_QUESTIONS + 1, asked);
    if q.at < text.len() {
        return Err(2 + e.count + o.count + q.count);
    }
    take_column(&pairs, 0, e.count, sources);
    take_column(&pairs, 1, e.count, targets);
    Ok(Reading {
        n,
        edges: e.count,
        orders: o.count,
        questions: q.count,
    })
}
