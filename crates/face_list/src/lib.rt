// Lists and chains for C: of an index of form 1 or 2; a list of a turned one too, form 3.
#![tactic(auto)]

ghost use Rattle.std.specs.Prelude.{◌≡◌, length};
ghost use Rattle.lineage.specs.Calls.{ordinary, turned, list_answer, list_marks, list_work, list_output};
ghost use Rattle.chain.specs.Traced.{chain_answer, chain_marks, chain_work, chain_output};
ghost use Rattle.face.specs.Host.{host_counted};
ghost use Rattle.face_list.specs.Chained.{host_chained};

use face::DrobistenCounted;
use refusals::Refusal;

// `list::list`.
#[unsafe(no_mangle)]
pub extern "C" fn drobisten_list(
    index: &[u8],
    marks: &mut [u8],
    work: &mut [u32],
    out: &mut [u32],
    vertex: u32,
) -> DrobistenCounted
    ensures value { result ≡ host_counted (list_answer ordinary index.now vertex (length marks.old) (length work.old) (length out.old)) }
    ensures marks_after { marks.new ≡ list_marks ordinary index.now vertex marks.old (length work.old) }
    ensures work_after { work.new ≡ list_work ordinary index.now vertex (length marks.old) work.old }
    ensures out_after { out.new ≡ list_output ordinary index.now vertex (length marks.old) (length work.old) out.old }
{
    list::list(index, vertex, marks, work, out).into()
}

// `turned::list_turned`.
#[unsafe(no_mangle)]
pub extern "C" fn drobisten_list_turned(
    index: &[u8],
    marks: &mut [u8],
    work: &mut [u32],
    out: &mut [u32],
    vertex: u32,
) -> DrobistenCounted
    ensures value { result ≡ host_counted (list_answer turned index.now vertex (length marks.old) (length work.old) (length out.old)) }
    ensures marks_after { marks.new ≡ list_marks turned index.now vertex marks.old (length work.old) }
    ensures work_after { work.new ≡ list_work turned index.now vertex (length marks.old) work.old }
    ensures out_after { out.new ≡ list_output turned index.now vertex (length marks.old) (length work.old) out.old }
{
    turned::list_turned(index, vertex, marks, work, out).into()
}

// What a chain gives: a refusal with its extra number, or refusal 0, whether there is a chain, and its steps.
#[repr(C)]
#[derive(Clone, Copy, Debug, PartialEq, Eq)]
pub struct DrobistenChained {
    pub refusal: u32,
    pub extra: u32,
    pub yes: u32,
    pub steps: u32,
}

impl From<Result<Option<u32>, Refusal>> for DrobistenChained {
    ghost use Rattle.chain.specs.Chained.{chained_of};
    ghost use Rattle.face_list.specs.Chained.{host_chained};

    ghost from_gives = { λ r host. host ≡ host_chained (chained_of r) };

    fn from(r: Result<Option<u32>, Refusal>) -> DrobistenChained {
        match r {
            Ok(Some(count)) => DrobistenChained {
                refusal: 0,
                extra: 0,
                yes: 1,
                steps: count,
            },
            Ok(None) => DrobistenChained {
                refusal: 0,
                extra: 0,
                yes: 0,
                steps: 0,
            },
            Err(refusal) => DrobistenChained {
                refusal: refusal.number(),
                extra: refusal.extra(),
                yes: 0,
                steps: 0,
            },
        }
    }
}

// `chain::chain`.
#[unsafe(no_mangle)]
pub extern "C" fn drobisten_chain(
    index: &[u8],
    marks: &mut [u8],
    work: &mut [u32],
    steps: &mut [u32],
    source: u32,
    target: u32,
) -> DrobistenChained
    ensures value { result ≡ host_chained (chain_answer ordinary index.now source target (length marks.old) (length work.old) (length steps.old)) }
    ensures marks_after { marks.new ≡ chain_marks ordinary index.now source target marks.old (length work.old) }
    ensures work_after { work.new ≡ chain_work ordinary index.now source target (length marks.old) work.old }
    ensures steps_after { steps.new ≡ chain_output ordinary index.now source target (length marks.old) (length work.old) steps.old }
{
    chain::chain(index, source, target, marks, work, steps).into()
}
