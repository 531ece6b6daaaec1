// The printer: bytes, words and decimals, put into a lent buffer at a position. Each call gives back the position behind what it put.
#![tactic(auto)]

ghost use Rattle.std.specs.Prelude.{◌∷◌, [], ◌≡◌, ◌+◌, ◌%◌, ◌≤◌, ◌<◌, length};
ghost use Rattle.text_lines.specs.Lines.{decimal};
ghost use Rattle.text.specs.Output.{two_numbers, three_numbers, question, refusal, said};
ghost use Rattle.text_printing.specs.Printer.{Put};

pub fn put_byte(out: &mut [u8], at: usize, b: u8) -> usize
    requires { at < length out.old }
    ensures { Put out.old at (b ∷ []) result out.new }
{
    out[at] = b;
    at + 1
}

pub fn put_word(out: &mut [u8], at: usize, word: &[u8]) -> usize
    requires { at + length word.now ≤ length out.old }
    ensures { Put out.old at word.now result out.new }
{
    let end = at + word.len();
    out[at..end].copy_from_slice(word);
    end
}

// The byte of a number's last digit.
fn digit(x: u32) -> u8
    ensures { result ≡ 48 + x % 10 }
{
    b'0' + (x % 10) as u8
}

// A number in decimal: its tenth part, then the last digit.
pub fn put_number(out: &mut [u8], at: usize, x: u32) -> usize
    requires { at + length (decimal x) ≤ length out.old }
    ensures { Put out.old at (decimal x) result out.new }
{
    if x < 10 {
        return put_byte(out, at, digit(x));
    }
    let p = put_number(out, at, x / 10);
    put_byte(out, p, digit(x))
}

// How many digits a number has.
pub fn decimal_length(x: u32) -> usize
    ensures { result ≡ length (decimal x) }
{
    let mut n = 1;
    let mut y = x;
    while 10 <= y {
        y /= 10;
        n += 1;
    }
    n
}

// Two numbers with a space between them.
pub fn put_two(out: &mut [u8], at: usize, x: u32, y: u32) -> usize
    requires { at + 21 ≤ length out.old }
    ensures { Put out.old at (two_numbers x y) result out.new }
{
    let a = put_number(out, at, x);
    let b = put_byte(out, a, b' ');
    put_number(out, b, y)
}

// Three numbers, a space before each but the first.
pub fn put_three(out: &mut [u8], at: usize, x: u32, y: u32, z: u32) -> usize
    requires { at + 32 ≤ length out.old }
    ensures { Put out.old at (three_numbers x y z) result out.new }
{
    let a = put_number(out, at, x);
    let b = put_byte(out, a, b' ');
    put_two(out, b, y, z)
}

// `q`, source, target, and the space before what the question is told.
pub fn put_question(out: &mut [u8], at: usize, source: u32, target: u32) -> usize
    requires { at + 24 ≤ length out.old }
    ensures { Put out.old at (question source target) result out.new }
{
    let a = put_word(out, at, b"q ");
    let b = put_two(out, a, source, target);
    put_byte(out, b, b' ')
}

pub fn put_refusal(out: &mut [u8], at: usize, number: u32, extra: u32) -> usize
    requires { at + 29 ≤ length out.old }
    ensures { Put out.old at (refusal number extra) result out.new }
{
    let a = put_word(out, at, b"refused ");
    put_two(out, a, number, extra)
}

// Yes or no, the reason, the groups opened, and the labelling that decided.
pub fn put_said(
    out: &mut [u8],
    at: usize,
    says: bool,
    reason: u32,
    opened: u32,
    deciding: u32,
) -> usize
    requires { at + 36 ≤ length out.old }
    ensures { Put out.old at (said (record { says = says; reason = reason; opened = opened; deciding = deciding })) result out.new }
{
    let word: &[u8] = if says { b"yes " } else { b"no " };
    let a = put_word(out, at, word);
    put_three(out, a, reason, opened, deciding)
}
