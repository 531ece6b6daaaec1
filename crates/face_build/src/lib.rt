// Building for C, and the text program's run.
#![tactic(auto)]

ghost use Rattle.std.specs.Prelude.{◌≡◌, ◌++◌, length, drop};
ghost use Rattle.lineage.specs.Stored.{form3};
ghost use Rattle.lineage.specs.Calls.{turned_input, build_answer, build_work, build_output, build_call, build_call_work, build_call_output};
ghost use Rattle.build.specs.Input.{input_of};
ghost use Rattle.text.specs.Output.{output};
ghost use Rattle.face.specs.Host.{host_counted};

use face::DrobistenCounted;
use text_run::MOST_OUTPUT;

// `build::build`.
#[unsafe(no_mangle)]
pub extern "C" fn drobisten_build(
    sources: &[u32],
    targets: &[u32],
    orders: &[u32],
    work: &mut [u32],
    out: &mut [u8],
    form: u32,
    n: u32,
    d: u32,
) -> DrobistenCounted
    ensures value { result ≡ host_counted (build_call form (input_of n sources.now targets.now d orders.now) (length work.old) (length out.old)) }
    ensures work_after { work.new ≡ build_call_work form (input_of n sources.now targets.now d orders.now) work.old }
    ensures out_after { out.new ≡ build_call_output form (input_of n sources.now targets.now d orders.now) (length work.old) out.old }
{
    build::build(form, n, sources, targets, orders, d, work, out).into()
}

// `turned::build_turned`.
#[unsafe(no_mangle)]
pub extern "C" fn drobisten_build_turned(
    sources: &[u32],
    targets: &[u32],
    orders: &[u32],
    work: &mut [u32],
    out: &mut [u8],
    n: u32,
    d: u32,
) -> DrobistenCounted
    ensures value { result ≡ host_counted (build_answer form3 (turned_input (input_of n sources.now targets.now d orders.now)) (length work.old) (length out.old)) }
    ensures work_after { work.new ≡ build_work form3 (turned_input (input_of n sources.now targets.now d orders.now)) work.old }
    ensures out_after { out.new ≡ build_output form3 (turned_input (input_of n sources.now targets.now d orders.now)) (length work.old) out.old }
{
    turned::build_turned(n, sources, targets, orders, d, work, out).into()
}

// `text_run::run`.
#[unsafe(no_mangle)]
pub extern "C" fn drobisten_run(text: &[u8], out: &mut [u8; MOST_OUTPUT]) -> usize
    ensures value { result ≡ length (output text.now) }
    ensures out_after { out.new ≡ output text.now ++ drop result out.old }
{
    text_run::run(text, out)
}
