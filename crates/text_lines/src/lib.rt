// The line reader. A match on byte values and ranges says what stands at a position; numbers and lines are read by that alone.
#![tactic(auto)]

ghost use Rattle.std.specs.Prelude.{◌≡◌, true, ◌∷◌, [], ◌+◌, ◌*◌, ◌^◌, ◌≤◌, length, drop};
ghost use Rattle.text_lines.specs.Lines.{most_digits};
ghost use Rattle.text_lines.specs.Reader.{is_letter, byte_in, digits_in, number_in, line_in, Into};

pub const MOST_DIGITS: usize = 5;

// What stands at a position: a letter that begins a line, a digit's value, a space, LF, another byte, or the text's end.
#[derive(Clone, Copy, Debug, PartialEq, Eq)]
pub enum Byte {
    Letter(u8),
    Digit(u32),
    Space,
    Lf,
    Other,
    End,
}

pub fn byte_at(text: &[u8], at: usize) -> Byte
    ensures { result ≡ byte_in (drop at text.now) }
{
    if text.len() <= at {
        return Byte::End;
    }
    let b = text[at];
    match b {
        b'v' | b'e' | b'o' | b'q' => Byte::Letter(b),
        b'0'..=b'9' => Byte::Digit(u32::from(b - b'0')),
        b' ' => Byte::Space,
        b'\n' => Byte::Lf,
        _ => Byte::Other,
    }
}

// A number that was read, and where it ends.
#[derive(Clone, Copy, Debug, PartialEq, Eq)]
pub struct Number {
    pub value: u32,
    pub next: usize,
}

// At most `left` digits behind those that made `value`, up to a space or LF.
fn read_digits(text: &[u8], at: usize, value: u32, left: usize) -> Option<Number>
    requires room { (value + 1) * 10 ^ left ≤ 10 ^ 9 }
    requires at_in_bounds { at ≤ length text.now }
    ensures { result ≡ digits_in left value at (drop at text.now) }
{
    let mut v = value;
    for i in 0..left {
        match byte_at(text, at + i) {
            Byte::Digit(d) => v = 10 * v + d,
            Byte::Space | Byte::Lf => {
                return Some(Number {
                    value: v,
                    next: at + i,
                });
            }
            _ => {
                return None;
            }
        }
    }
    match byte_at(text, at + left) {
        Byte::Space | Byte::Lf => Some(Number {
            value: v,
            next: at + left,
        }),
        _ => None,
    }
}

// A decimal of 1 to `most` digits without needless zeros, up to a space or LF.
pub fn read_number(text: &[u8], at: usize, most: usize) -> Option<Number>
    requires { (1 ≤ most) × (most ≤ 9) }
    ensures { result ≡ number_in most at (drop at text.now) }
{
    match byte_at(text, at) {
        Byte::Digit(d) => {
            if d == 0 {
                read_digits(text, at + 1, 0, 0)
            } else {
                read_digits(text, at + 1, d, most - 1)
            }
        }
        _ => None,
    }
}

// Lines that stood first: how many, and where the text goes on.
#[derive(Clone, Copy, Debug, PartialEq, Eq)]
pub struct Block {
    pub count: usize,
    pub at: usize,
}

// Exactly `size` numbers of at most `most` digits, each behind a single space, then LF: where the next line begins. They go into the list from `base` on.
pub fn read_numbers(
    text: &[u8],
    at: usize,
    most: usize,
    size: usize,
    into: &mut [u32],
    base: usize,
) -> Option<usize>
    requires { ((1 ≤ most) × (most ≤ 9)) × (base + size ≤ length into.old) }
    ensures { Into result (line_in most [] size (drop at text.now)) at base size into.old into.new }
{
    let mut p = at;
    for j in 0..size {
        let Byte::Space = byte_at(text, p) else {
            return None;
        };
        let number = read_number(text, p + 1, most)?;
        into[base + j] = number.value;
        p = number.next;
    }
    match byte_at(text, p) {
        Byte::Lf => Some(p + 1),
        _ => None,
    }
}

// A line of this letter and `size` numbers.
pub fn read_line(
    text: &[u8],
    at: usize,
    letter: u8,
    size: usize,
    into: &mut [u32],
    base: usize,
) -> Option<usize>
    requires { (is_letter letter ≡ true) × (base + size ≤ length into.old) }
    ensures { Into result (line_in most_digits (letter ∷ []) size (drop at text.now)) at base size into.old into.new }
{
    match byte_at(text, at) {
        Byte::Letter(b) => {
            if b == letter {
                read_numbers(text, at + 1, MOST_DIGITS, size, into, base)
            } else {
                None
            }
        }
        _ => None,
    }
}
