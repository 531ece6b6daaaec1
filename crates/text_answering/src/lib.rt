// The questions of a text, asked one after the other: one line each.
#![tactic(auto)]

ghost use Rattle.std.specs.Prelude.{◌+◌, ◌*◌, ◌≤◌, length};
ghost use Rattle.text.specs.Output.{told, question_line, answer_to, answers_to};
ghost use Rattle.text_printing.specs.Printer.{Put};

use text::MOST_VERTICES;

// Asks a question, and puts what it is told: the answer, or the refusal.
fn put_told(out: &mut [u8], at: usize, index: &[u8], source: u32, target: u32) -> usize
    requires { at + 36 ≤ length out.old }
    ensures { Put out.old at (told (answer_to index.now source target)) result out.new }
{
    let mut marks = [0u8; MOST_VERTICES];
    match ask::ask_form1(index, source, target, &mut marks) {
        Ok(a) => text_printing::put_said(out, at, a.says, a.reason, a.opened, a.deciding),
        Err(refusal) => text_printing::put_refusal(out, at, refusal.number(), refusal.extra()),
    }
}

// The line of one question.
fn put_answer(out: &mut [u8], at: usize, index: &[u8], source: u32, target: u32) -> usize
    requires { at + 61 ≤ length out.old }
    ensures { Put out.old at (question_line source target (answer_to index.now source target)) result out.new }
{
    let a = text_printing::put_question(out, at, source, target);
    let b = put_told(out, a, index, source, target);
    text_printing::put_byte(out, b, b'\n')
}

// One line per question.
pub fn put_answers(out: &mut [u8], index: &[u8], asked: &[u32]) -> usize
    requires { 31 * length asked.now ≤ length out.old }
    ensures { Put out.old 0 (answers_to index.now asked.now) result out.new }
{
    let mut at = 0;
    for i in 0..asked.len() / 2 {
        at = put_answer(out, at, index, asked[2 * i], asked[2 * i + 1]);
    }
    at
}
