// Opening, asking and converting for C: an index of form 1 or 2, and a turned one, form 3, opened and asked.
#![tactic(auto)]

ghost use Rattle.std.specs.Prelude.{◌≡◌, length};
ghost use Rattle.lineage.specs.Calls.{ordinary, turned, open_answer, open_marks, open_work, ask_answer, ask_marks, ask_work};
ghost use Rattle.ask_all.specs.Batch.{batch_answer, batch_answers, batch_marks, batch_work};
ghost use Rattle.convert.specs.Convert.{convert_answer, convert_marks, convert_work, convert_output};
ghost use Rattle.face.specs.Host.{host_opened, host_asked, host_asked_all, host_counted};

use face::{DrobistenAsked, DrobistenAskedAll, DrobistenCounted, DrobistenOpened};

// `open::open`.
#[unsafe(no_mangle)]
pub extern "C" fn drobisten_inspect(
    index: &[u8],
    marks: &mut [u8],
    work: &mut [u32],
) -> DrobistenOpened
    ensures value { result ≡ host_opened (open_answer ordinary index.now (length marks.old) (length work.old)) }
    ensures marks_after { marks.new ≡ open_marks ordinary index.now marks.old (length work.old) }
    ensures work_after { work.new ≡ open_work ordinary index.now (length marks.old) work.old }
{
    open::open(index, marks, work).into()
}

// `turned::open_turned`.
#[unsafe(no_mangle)]
pub extern "C" fn drobisten_inspect_turned(
    index: &[u8],
    marks: &mut [u8],
    work: &mut [u32],
) -> DrobistenOpened
    ensures value { result ≡ host_opened (open_answer turned index.now (length marks.old) (length work.old)) }
    ensures marks_after { marks.new ≡ open_marks turned index.now marks.old (length work.old) }
    ensures work_after { work.new ≡ open_work turned index.now (length marks.old) work.old }
{
    turned::open_turned(index, marks, work).into()
}

// `ask::ask`.
#[unsafe(no_mangle)]
pub extern "C" fn drobisten_question(
    index: &[u8],
    marks: &mut [u8],
    work: &mut [u32],
    source: u32,
    target: u32,
) -> DrobistenAsked
    ensures value { result ≡ host_asked (ask_answer ordinary index.now source target (length marks.old) (length work.old)) }
    ensures marks_after { marks.new ≡ ask_marks ordinary index.now source target marks.old (length work.old) }
    ensures work_after { work.new ≡ ask_work ordinary index.now source target (length marks.old) work.old }
{
    ask::ask(index, source, target, marks, work).into()
}

// `turned::ask_turned`.
#[unsafe(no_mangle)]
pub extern "C" fn drobisten_question_turned(
    index: &[u8],
    marks: &mut [u8],
    work: &mut [u32],
    source: u32,
    target: u32,
) -> DrobistenAsked
    ensures value { result ≡ host_asked (ask_answer turned index.now source target (length marks.old) (length work.old)) }
    ensures marks_after { marks.new ≡ ask_marks turned index.now source target marks.old (length work.old) }
    ensures work_after { work.new ≡ ask_work turned index.now source target (length marks.old) work.old }
{
    turned::ask_turned(index, source, target, marks, work).into()
}

// `ask_all::ask_all`: six numbers a pair, in the order of `DrobistenAsked`.
#[unsafe(no_mangle)]
pub extern "C" fn drobisten_batch(
    index: &[u8],
    marks: &mut [u8],
    work: &mut [u32],
    sources: &[u32],
    targets: &[u32],
    answers: &mut [u32],
) -> DrobistenAskedAll
    ensures value { result ≡ host_asked_all (batch_answer ordinary index.now sources.now targets.now (length marks.old) (length work.old) (length answers.old)) }
    ensures marks_after { marks.new ≡ batch_marks ordinary index.now sources.now targets.now marks.old (length work.old) (length answers.old) }
    ensures work_after { work.new ≡ batch_work ordinary index.now (length marks.old) work.old }
    ensures answers_after { answers.new ≡ batch_answers ordinary index.now sources.now targets.now (length marks.old) (length work.old) answers.old }
{
    ask_all::ask_all(index, sources, targets, marks, work, answers).into()
}

// `convert::convert_up`: form 1 as form 2.
#[unsafe(no_mangle)]
pub extern "C" fn drobisten_convert_up(
    index: &[u8],
    marks: &mut [u8],
    out: &mut [u8],
) -> DrobistenCounted
    ensures value { result ≡ host_counted (convert_answer 1 2 index.now (length marks.old) 0 (length out.old)) }
    ensures marks_after { marks.new ≡ convert_marks 1 index.now marks.old 0 }
    ensures out_after { out.new ≡ convert_output 1 2 index.now (length marks.old) 0 out.old }
{
    convert::convert_up(index, marks, out).into()
}

// `convert::convert_down`: form 2 as form 1.
#[unsafe(no_mangle)]
pub extern "C" fn drobisten_convert_down(
    index: &[u8],
    marks: &mut [u8],
    work: &mut [u32],
    out: &mut [u8],
) -> DrobistenCounted
    ensures value { result ≡ host_counted (convert_answer 2 1 index.now (length marks.old) (length work.old) (length out.old)) }
    ensures marks_after { marks.new ≡ convert_marks 2 index.now marks.old (length work.old) }
    ensures work_after { work.new ≡ convert_work 2 index.now (length marks.old) work.old }
    ensures out_after { out.new ≡ convert_output 2 1 index.now (length marks.old) (length work.old) out.old }
{
    convert::convert_down(index, marks, work, out).into()
}
