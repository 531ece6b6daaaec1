// The stored index of a plain hierarchy, form 4, for C: built, opened, asked, and converted from form 2 and back.
#![tactic(auto)]

ghost use Rattle.std.specs.Prelude.{◌≡◌, length};
ghost use Rattle.lineage.specs.Stored.{form4};
ghost use Rattle.lineage.specs.Calls.{hierarchy, build_answer, build_work, build_output, open_answer, open_marks, open_work, ask_answer, ask_marks, ask_work};
ghost use Rattle.build.specs.Input.{input_of};
ghost use Rattle.convert.specs.Convert.{convert_marks, convert_work};
ghost use Rattle.hierarchy.specs.Turn.{turn_answer, turn_output};
ghost use Rattle.face.specs.Host.{host_opened, host_asked, host_counted};

use face::{DrobistenAsked, DrobistenCounted, DrobistenOpened};

// `build::build_hierarchy`.
#[unsafe(no_mangle)]
pub extern "C" fn drobisten_build_hierarchy(
    sources: &[u32],
    targets: &[u32],
    orders: &[u32],
    work: &mut [u32],
    out: &mut [u8],
    n: u32,
    d: u32,
) -> DrobistenCounted
    ensures value { result ≡ host_counted (build_answer form4 (input_of n sources.now targets.now d orders.now) (length work.old) (length out.old)) }
    ensures work_after { work.new ≡ build_work form4 (input_of n sources.now targets.now d orders.now) work.old }
    ensures out_after { out.new ≡ build_output form4 (input_of n sources.now targets.now d orders.now) (length work.old) out.old }
{
    build::build_hierarchy(n, sources, targets, orders, d, work, out).into()
}

// `hierarchy::open_hierarchy`.
#[unsafe(no_mangle)]
pub extern "C" fn drobisten_inspect_hierarchy(
    index: &[u8],
    marks: &mut [u8],
    work: &mut [u32],
) -> DrobistenOpened
    ensures value { result ≡ host_opened (open_answer hierarchy index.now (length marks.old) (length work.old)) }
    ensures marks_after { marks.new ≡ open_marks hierarchy index.now marks.old (length work.old) }
    ensures work_after { work.new ≡ open_work hierarchy index.now (length marks.old) work.old }
{
    hierarchy::open_hierarchy(index, marks, work).into()
}

// `hierarchy::ask_hierarchy`.
#[unsafe(no_mangle)]
pub extern "C" fn drobisten_question_hierarchy(
    index: &[u8],
    marks: &mut [u8],
    work: &mut [u32],
    source: u32,
    target: u32,
) -> DrobistenAsked
    ensures value { result ≡ host_asked (ask_answer hierarchy index.now source target (length marks.old) (length work.old)) }
    ensures marks_after { marks.new ≡ ask_marks hierarchy index.now source target marks.old (length work.old) }
    ensures work_after { work.new ≡ ask_work hierarchy index.now source target (length marks.old) work.old }
{
    hierarchy::ask_hierarchy(index, source, target, marks, work).into()
}

// `hierarchy::to_hierarchy`: form 2 as form 4.
#[unsafe(no_mangle)]
pub extern "C" fn drobisten_to_hierarchy(
    index: &[u8],
    marks: &mut [u8],
    work: &mut [u32],
    out: &mut [u8],
) -> DrobistenCounted
    ensures value { result ≡ host_counted (turn_answer 2 4 index.now (length marks.old) (length work.old) (length out.old)) }
    ensures marks_after { marks.new ≡ convert_marks 2 index.now marks.old (length work.old) }
    ensures work_after { work.new ≡ convert_work 2 index.now (length marks.old) work.old }
    ensures out_after { out.new ≡ turn_output 2 4 index.now (length marks.old) (length work.old) out.old }
{
    hierarchy::to_hierarchy(index, marks, work, out).into()
}

// `hierarchy::from_hierarchy`: form 4 as form 2.
#[unsafe(no_mangle)]
pub extern "C" fn drobisten_from_hierarchy(
    index: &[u8],
    marks: &mut [u8],
    work: &mut [u32],
    out: &mut [u8],
) -> DrobistenCounted
    ensures value { result ≡ host_counted (turn_answer 4 2 index.now (length marks.old) (length work.old) (length out.old)) }
    ensures marks_after { marks.new ≡ convert_marks 4 index.now marks.old (length work.old) }
    ensures work_after { work.new ≡ convert_work 4 index.now (length marks.old) work.old }
    ensures out_after { out.new ≡ turn_output 4 2 index.now (length marks.old) (length work.old) out.old }
{
    hierarchy::from_hierarchy(index, marks, work, out).into()
}
