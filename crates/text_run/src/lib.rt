// The text program's whole run, text in and text out: the text is checked whole, then built, then asked.
#![tactic(auto)]

ghost use Rattle.std.specs.Prelude.{◌≡◌, ◌++◌, ◌+◌, ◌*◌, ◌≤◌, length, drop};
ghost use Rattle.text_lines.specs.Lines.{bytes};
ghost use Rattle.text.specs.Text.{says};
ghost use Rattle.text.specs.Output.{refusal, after_reading, output};
ghost use Rattle.text_printing.specs.Printer.{Put};
ghost use Rattle.refusals.specs.Refusals.{number_of, extra_of};

use refusals::Refusal;
use text::{MOST_BYTES, MOST_EDGES, MOST_ORDERS, MOST_QUESTIONS, MOST_VERTICES};

// The most bytes of output: 62 for the line of each question.
pub const MOST_OUTPUT: usize = 62 * MOST_QUESTIONS;

// The words and bytes that a build is lent: 16n + 4 x edges + 64, and 50 + 2n + 6k + 2c + 8dk at the program's bounds.
const WORK: usize = 16 * MOST_VERTICES + 4 * MOST_EDGES + 64;

const INDEX: usize = 50
    + 2 * MOST_VERTICES
    + 6 * MOST_VERTICES
    + 2 * MOST_EDGES
    + 8 * MOST_ORDERS * MOST_VERTICES;

// A refusal that is printed alone.
fn put_refused(out: &mut [u8], why: Refusal) -> usize
    requires { 30 ≤ length out.old }
    ensures { Put out.old 0 (refusal (number_of why) (extra_of why) ++ bytes "\n") result out.new }
{
    let a = text_printing::put_refusal(out, 0, why.number(), why.extra());
    text_printing::put_byte(out, a, b'\n')
}

// Builds what a good text says, and asks its questions.
fn put_built(
    out: &mut [u8],
    n: u32,
    sources: &[u32],
    targets: &[u32],
    d: u32,
    orders: &[u32],
    asked: &[u32],
) -> usize
    requires { (30 ≤ length out.old) × (31 * length asked.now ≤ length out.old) }
    ensures { Put out.old 0 (after_reading (says (record { n = n; sources = sources.now; targets = targets.now; d = d; orders = orders.now; asked = asked.now }))) result out.new }
{
    let mut work = [0u32; WORK];
    let mut index = [0u8; INDEX];
    match build::build(1, n, sources, targets, orders, d, &mut work, &mut index) {
        Ok(total) => text_answering::put_answers(out, &index[..total as usize], asked),
        Err(why) => put_refused(out, why),
    }
}

// The whole run: what the program prints on a text, and how many bytes that is. The output behind it keeps its contents.
pub fn run(text: &[u8], out: &mut [u8; MOST_OUTPUT]) -> usize
    ensures value { result ≡ length (output text.now) }
    ensures out_after { out.new ≡ output text.now ++ drop result out.old }
{
    if MOST_BYTES < text.len() {
        return put_refused(out, Refusal::BadText(0));
    }
    let mut sources = [0u32; MOST_EDGES];
    let mut targets = [0u32; MOST_EDGES];
    let mut orders = [0u32; MOST_ORDERS * MOST_VERTICES];
    let mut asked = [0u32; 2 * (MOST_QUESTIONS + 1)];
    match text::read_text(text, &mut sources, &mut targets, &mut orders, &mut asked) {
        Ok(read) => put_built(
            out,
            read.n as u32,
            &sources[..read.edges],
            &targets[..read.edges],
            read.orders as u32,
            &orders[..read.orders * read.n],
            &asked[..read.questions * 2],
        ),
        Err(line) => put_refused(out, Refusal::BadText(line as u32)),
    }
}
