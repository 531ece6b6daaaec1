// Exception lists for C: built and opened beside an index of form 1, and asked.
#![tactic(auto)]

ghost use Rattle.std.specs.Prelude.{◌≡◌, length};
ghost use Rattle.exceptions.specs.Calls.{exceptions_built, exceptions_output, exceptions_opened, exceptions_asked, exception_marks};
ghost use Rattle.exceptions_all.specs.Batch.{all_exceptions, exceptions_answers};
ghost use Rattle.face.specs.Host.{host_asked_all, host_counted, host_said};
ghost use Rattle.face_exceptions.specs.Lists.{host_lists};

use exceptions::Opened;
use face::{DrobistenAskedAll, DrobistenCounted, DrobistenSaid};
use refusals::Refusal;

// `exceptions::build_exceptions`.
#[unsafe(no_mangle)]
pub extern "C" fn drobisten_build_exceptions(
    index: &[u8],
    marks: &mut [u8],
    out: &mut [u8],
) -> DrobistenCounted
    ensures value { result ≡ host_counted (exceptions_built index.now (length marks.old) (length out.old)) }
    ensures marks_after { marks.new ≡ exception_marks index.now marks.old }
    ensures out_after { out.new ≡ exceptions_output index.now (length marks.old) out.old }
{
    exceptions::build_exceptions(index, marks, out).into()
}

// What opening lists gives: a refusal with its extra number, or refusal 0 and of how many groups they are and how many entries they have.
#[repr(C)]
#[derive(Clone, Copy, Debug, PartialEq, Eq)]
pub struct DrobistenLists {
    pub refusal: u32,
    pub extra: u32,
    pub groups: u32,
    pub entries: u32,
}

impl From<Result<Opened, Refusal>> for DrobistenLists {
    ghost use Rattle.exceptions.specs.Opened.{opened_of};
    ghost use Rattle.face_exceptions.specs.Lists.{host_lists};

    ghost from_gives = { λ r host. host ≡ host_lists (opened_of r) };

    fn from(r: Result<Opened, Refusal>) -> DrobistenLists {
        match r {
            Ok(Opened { groups, entries }) => DrobistenLists {
                refusal: 0,
                extra: 0,
                groups,
                entries,
            },
            Err(refusal) => DrobistenLists {
                refusal: refusal.number(),
                extra: refusal.extra(),
                groups: 0,
                entries: 0,
            },
        }
    }
}

// `exceptions::open_exceptions`.
#[unsafe(no_mangle)]
pub extern "C" fn drobisten_open_exceptions(
    index: &[u8],
    lists: &[u8],
    marks: &mut [u8],
) -> DrobistenLists
    ensures value { result ≡ host_lists (exceptions_opened index.now lists.now (length marks.old)) }
    ensures marks_after { marks.new ≡ exception_marks index.now marks.old }
{
    exceptions::open_exceptions(index, lists, marks).into()
}

// `exceptions::ask_exceptions`.
#[unsafe(no_mangle)]
pub extern "C" fn drobisten_ask_exceptions(
    index: &[u8],
    lists: &[u8],
    marks: &mut [u8],
    source: u32,
    target: u32,
) -> DrobistenSaid
    ensures value { result ≡ host_said (exceptions_asked index.now lists.now source target (length marks.old)) }
    ensures marks_after { marks.new ≡ exception_marks index.now marks.old }
{
    exceptions::ask_exceptions(index, lists, source, target, marks).into()
}

// `exceptions_all::ask_all_exceptions`: three numbers a pair, in the order of `DrobistenSaid`.
#[unsafe(no_mangle)]
pub extern "C" fn drobisten_ask_all_exceptions(
    index: &[u8],
    lists: &[u8],
    marks: &mut [u8],
    sources: &[u32],
    targets: &[u32],
    answers: &mut [u32],
) -> DrobistenAskedAll
    ensures value { result ≡ host_asked_all (all_exceptions index.now lists.now sources.now targets.now (length marks.old) (length answers.old)) }
    ensures marks_after { marks.new ≡ exception_marks index.now marks.old }
    ensures answers_after { answers.new ≡ exceptions_answers index.now lists.now sources.now targets.now (length marks.old) answers.old }
{
    exceptions_all::ask_all_exceptions(index, lists, sources, targets, marks, answers).into()
}
