// What is kept beside an index, for C: added edges, which go in and out by value, and the states of rules as lists.
#![tactic(auto)]

ghost use Rattle.std.specs.Prelude.{◌≡◌, length};
ghost use Rattle.lineage.specs.Calls.{ordinary};
ghost use Rattle.added.specs.Adding.{add_answer, add_state};
ghost use Rattle.added.specs.Asked.{added_answer, added_marks, added_work};
ghost use Rattle.rules_states.specs.Rules.{rules_answer, rules_marks, rules_work, rule_states};
ghost use Rattle.rules_table.specs.Table.{desk_settled};
ghost use Rattle.face.specs.Host.{host_said};
ghost use Rattle.face_beside.specs.Taken.{host_taken};

use added::{Added, Adding};
use face::DrobistenSaid;
use rules_table::RulesSettled;

// What adding an edge gives: a refusal with its extra number, or refusal 0; and the added edges afterwards.
#[repr(C)]
#[derive(Clone, Copy)]
pub struct DrobistenTaken {
    pub refusal: u32,
    pub extra: u32,
    pub state: Added,
}

impl From<Adding> for DrobistenTaken {
    ghost use Rattle.added.specs.Adding.{taken_of};
    ghost use Rattle.face_beside.specs.Taken.{host_taken};

    ghost from_gives = { λ r host. host ≡ host_taken (taken_of r.answer) r.state };

    fn from(r: Adding) -> DrobistenTaken {
        let (refusal, extra) = match r.answer {
            Ok(()) => (0, 0),
            Err(refusal) => (refusal.number(), refusal.extra()),
        };
        DrobistenTaken {
            refusal,
            extra,
            state: r.state,
        }
    }
}

// `added::add`.
#[unsafe(no_mangle)]
pub extern "C" fn drobisten_add(state: Added, n: u32, from: u32, to: u32) -> DrobistenTaken
    ensures { result ≡ host_taken (add_answer state.count n from to) (add_state state n from to) }
{
    added::add(state, n, from, to).into()
}

// `added::ask_added`.
#[unsafe(no_mangle)]
pub extern "C" fn drobisten_ask_added(
    index: &[u8],
    marks: &mut [u8],
    work: &mut [u32],
    state: Added,
    source: u32,
    target: u32,
) -> DrobistenSaid
    ensures value { result ≡ host_said (added_answer ordinary index.now state source target (length marks.old) (length work.old)) }
    ensures marks_after { marks.new ≡ added_marks ordinary index.now source target marks.old (length work.old) }
    ensures work_after { work.new ≡ added_work ordinary index.now source target (length marks.old) work.old }
{
    added::ask_added(index, state, source, target, marks, work).into()
}

// `rules::settle_lists`.
#[unsafe(no_mangle)]
pub extern "C" fn drobisten_settle_lists(
    index: &[u8],
    changed: &[u32],
    marks: &mut [u8],
    work: &mut [u32],
    vertices: &[u32],
    states: &mut [u32],
) -> RulesSettled
    ensures value { result ≡ desk_settled (rules_answer ordinary index.now changed.now (length marks.old) (length work.old)) }
    ensures marks_after { marks.new ≡ rules_marks ordinary index.now changed.now marks.old (length work.old) }
    ensures work_after { work.new ≡ rules_work ordinary index.now changed.now (length marks.old) work.old }
    ensures states_after { states.new ≡ rule_states ordinary index.now changed.now (length marks.old) (length work.old) vertices.now states.old }
{
    rules::settle_lists(index, changed, marks, work, vertices, states).into()
}
