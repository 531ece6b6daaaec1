// The C face: every call for a program in C, on plain numbers and buffers that it lends; include/drobisten.h is its manual. Here stand the structs that more than one
// call gives, how each is made of what a call answers, and the host's three calls, on form 1 alone. The other calls are in the crates face_.. and, for a table of rule
// records, in rules_table; tool/library makes one archive of all.
#![tactic(auto)]

ghost use Rattle.std.specs.Prelude.{◌≡◌, length};
ghost use Rattle.lineage.specs.Calls.{host, open_answer, open_marks, ask_answer, ask_marks};
ghost use Rattle.ask_all.specs.Batch.{batch_answer, batch_answers, batch_marks};
ghost use Rattle.face.specs.Host.{host_opened, host_asked, host_asked_all};

use ask::Asked;
use ask_all::BatchRefusal;
use open::Opened;
use refusals::Refusal;

// What opening gives: a refusal with its extra number, or refusal 0 and the counts.
#[repr(C)]
#[derive(Clone, Copy, Debug, PartialEq, Eq)]
pub struct DrobistenOpened {
    pub refusal: u32,
    pub extra: u32,
    pub n: u32,
    pub k: u32,
    pub c: u32,
    pub d: u32,
}

impl From<Result<Opened, Refusal>> for DrobistenOpened {
    ghost use Rattle.open.specs.Opened.{opened_of};
    ghost use Rattle.face.specs.Host.{host_opened};

    ghost from_gives = { λ r host. host ≡ host_opened (opened_of r) };

    fn from(r: Result<Opened, Refusal>) -> DrobistenOpened {
        match r {
            Ok(Opened { n, k, c, d }) => DrobistenOpened {
                refusal: 0,
                extra: 0,
                n,
                k,
                c,
                d,
            },
            Err(refusal) => DrobistenOpened {
                refusal: refusal.number(),
                extra: refusal.extra(),
                n: 0,
                k: 0,
                c: 0,
                d: 0,
            },
        }
    }
}

// What asking gives: a refusal with its extra number, or refusal 0 and the answer.
#[repr(C)]
#[derive(Clone, Copy, Debug, PartialEq, Eq)]
pub struct DrobistenAsked {
    pub refusal: u32,
    pub extra: u32,
    pub yes: u32,
    pub reason: u32,
    pub opened: u32,
    pub labelling: u32,
}

impl From<Result<Asked, Refusal>> for DrobistenAsked {
    ghost use Rattle.ask.specs.Asked.{asked_of};
    ghost use Rattle.face.specs.Host.{host_asked};

    ghost from_gives = { λ r host. host ≡ host_asked (asked_of r) };

    fn from(r: Result<Asked, Refusal>) -> DrobistenAsked {
        match r {
            Ok(answer) => DrobistenAsked {
                refusal: 0,
                extra: 0,
                yes: answer.says as u32,
                reason: answer.reason,
                opened: answer.opened,
                labelling: answer.deciding,
            },
            Err(refusal) => DrobistenAsked {
                refusal: refusal.number(),
                extra: refusal.extra(),
                yes: 0,
                reason: 0,
                opened: 0,
                labelling: 0,
            },
        }
    }
}

// What asking all pairs gives: a refusal with its extra number, or refusal 0 and the number of pairs.
#[repr(C)]
#[derive(Clone, Copy, Debug, PartialEq, Eq)]
pub struct DrobistenAskedAll {
    pub refusal: u32,
    pub extra: usize,
    pub count: usize,
}

impl From<Result<usize, BatchRefusal>> for DrobistenAskedAll {
    ghost use Rattle.ask_all.specs.Batched.{batched_of};
    ghost use Rattle.face.specs.Host.{host_asked_all};

    ghost from_gives = { λ r host. host ≡ host_asked_all (batched_of r) };

    fn from(r: Result<usize, BatchRefusal>) -> DrobistenAskedAll {
        let (refusal, extra, count) = match r {
            Ok(count) => (0, 0, count),
            Err(refusal) => (refusal.number(), refusal.extra(), 0),
        };
        DrobistenAskedAll {
            refusal,
            extra,
            count,
        }
    }
}

// What a call gives that answers one number: a refusal with its extra number, or refusal 0 and the number.
#[repr(C)]
#[derive(Clone, Copy, Debug, PartialEq, Eq)]
pub struct DrobistenCounted {
    pub refusal: u32,
    pub extra: u32,
    pub count: u32,
}

impl From<Result<u32, Refusal>> for DrobistenCounted {
    ghost use Rattle.refusals.specs.Refusals.{outcome_by};
    ghost use Rattle.face.specs.Host.{host_counted};

    ghost from_gives = { λ r host. host ≡ host_counted (outcome_by (λ count. count) r) };

    fn from(r: Result<u32, Refusal>) -> DrobistenCounted {
        let (refusal, extra, count) = match r {
            Ok(count) => (0, 0, count),
            Err(refusal) => (refusal.number(), refusal.extra(), 0),
        };
        DrobistenCounted {
            refusal,
            extra,
            count,
        }
    }
}

// What a question without a reason gives: a refusal with its extra number, or refusal 0 and yes or no.
#[repr(C)]
#[derive(Clone, Copy, Debug, PartialEq, Eq)]
pub struct DrobistenSaid {
    pub refusal: u32,
    pub extra: u32,
    pub yes: u32,
}

impl From<Result<bool, Refusal>> for DrobistenSaid {
    ghost use Rattle.refusals.specs.Refusals.{outcome_by};
    ghost use Rattle.face.specs.Host.{host_said};

    ghost from_gives = { λ r host. host ≡ host_said (outcome_by (λ says. says) r) };

    fn from(r: Result<bool, Refusal>) -> DrobistenSaid {
        let (refusal, extra, yes) = match r {
            Ok(says) => (0, 0, says as u32),
            Err(refusal) => (refusal.number(), refusal.extra(), 0),
        };
        DrobistenSaid {
            refusal,
            extra,
            yes,
        }
    }
}

// `open_form1` for the host.
#[unsafe(no_mangle)]
pub extern "C" fn drobisten_open(index: &[u8], marks: &mut [u8]) -> DrobistenOpened
    ensures value { result ≡ host_opened (open_answer host index.now (length marks.old) 0) }
    ensures marks_after { marks.new ≡ open_marks host index.now marks.old 0 }
{
    open::open_form1(index, marks).into()
}

// `ask_form1` for the host.
#[unsafe(no_mangle)]
pub extern "C" fn drobisten_ask(
    index: &[u8],
    marks: &mut [u8],
    source: u32,
    target: u32,
) -> DrobistenAsked
    ensures value { result ≡ host_asked (ask_answer host index.now source target (length marks.old) 0) }
    ensures marks_after { marks.new ≡ ask_marks host index.now source target marks.old 0 }
{
    ask::ask_form1(index, source, target, marks).into()
}

// `ask_all_form1` for the host: six numbers a pair, in the order of `DrobistenAsked`.
#[unsafe(no_mangle)]
pub extern "C" fn drobisten_ask_all(
    index: &[u8],
    marks: &mut [u8],
    sources: &[u32],
    targets: &[u32],
    answers: &mut [u32],
) -> DrobistenAskedAll
    ensures value { result ≡ host_asked_all (batch_answer host index.now sources.now targets.now (length marks.old) 0 (length answers.old)) }
    ensures marks_after { marks.new ≡ batch_marks host index.now sources.now targets.now marks.old 0 (length answers.old) }
    ensures answers_after { answers.new ≡ batch_answers host index.now sources.now targets.now (length marks.old) 0 answers.old }
{
    ask_all::ask_all_form1(index, sources, targets, marks, answers).into()
}
