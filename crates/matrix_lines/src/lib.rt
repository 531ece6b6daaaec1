// The lines of a Matrix Market text: its header, the comments behind it, and rows of numbers. A match on its first byte says what a line is; the text program's
// reader, whose match says what stands at any other position, reads the rows.
#![tactic(auto)]

ghost use Rattle.std.specs.Prelude.{◌≡◌, ◌+◌, ◌≤◌, length, drop};
ghost use Rattle.text_lines.specs.Lines.{lf, first_piece};
ghost use Rattle.text_lines.specs.Reader.{Into};
ghost use Rattle.matrix_lines.specs.Matrix.{is_comment};
ghost use Rattle.matrix_lines.specs.Reader.{header_in, kind_in, row_in, all_run, RunInto};

use text_lines::{Block, read_number, read_numbers};

pub const MOST_DIGITS: usize = 7;

// The first line is the header.
pub fn header_stands(text: &[u8]) -> bool
    ensures { result ≡ header_in text.now }
{
    text.starts_with(b"%%MatrixMarket matrix coordinate pattern general\n")
}

// What a line is, by its first byte: a comment, a row of numbers, or neither.
#[derive(Clone, Copy, Debug, PartialEq, Eq)]
pub enum LineKind {
    Comment,
    Row,
    Neither,
}

pub fn kind_at(text: &[u8], at: usize) -> LineKind
    ensures { result ≡ kind_in (drop at text.now) }
{
    if text.len() <= at {
        return LineKind::Neither;
    }
    match text[at] {
        b'%' => LineKind::Comment,
        b'0'..=b'9' => LineKind::Row,
        _ => LineKind::Neither,
    }
}

// Where the line ends: at its LF, or at the text's end.
fn line_end(text: &[u8], at: usize) -> usize
    requires { at ≤ length text.now }
    ensures { (result ≡ at + length (first_piece lf (drop at text.now))) × (result ≤ length text.now) }
{
    match text[at..].iter().position(|byte| *byte == b'\n') {
        Some(length) => at + length,
        None => text.len(),
    }
}

// The comment lines that stand first.
pub fn skip_comments(text: &[u8], at: usize) -> Block
    requires { at ≤ length text.now }
    ensures { RunInto text.now at (all_run is_comment (drop at text.now)) result.count result.at }
{
    let mut i = 0;
    let mut p = at;
    while let LineKind::Comment = kind_at(text, p) {
        let end = line_end(text, p);
        if text.len() <= end {
            break;
        }
        p = end + 1;
        i += 1;
    }
    Block { count: i, at: p }
}

// A line of exactly `size` numbers, single spaces between them. They go into the list from its start on.
pub fn read_row(text: &[u8], at: usize, size: usize, into: &mut [u32]) -> Option<usize>
    requires { (1 ≤ size) × (size ≤ length into.old) }
    ensures { Into result (row_in size (drop at text.now)) at 0 size into.old into.new }
{
    let first = read_number(text, at, MOST_DIGITS)?;
    into[0] = first.value;
    read_numbers(text, first.next, MOST_DIGITS, size - 1, into, 1)
}
