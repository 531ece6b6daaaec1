// The rule desk's product over parallel lists (document 02, [11]): given the vertices that a retrain has changed, the states of a table of rules, each by the vertex
// of its rule.
#![tactic(auto)]

ghost use Rattle.std.specs.Prelude.{◌≡◌, length};
ghost use Rattle.lineage.specs.Calls.{forms_taken, ordinary};
ghost use Rattle.rules_states.specs.Rules.{rules_answer, rule_states, rules_marks, rules_work};
ghost use Rattle.rules.specs.declared.SettleRefusal.TheVariants.{Refused};
ghost use Rattle.rules.specs.Settled.{settle_number, settle_extra, settled_of, prepared_of, Own, prepared_answer, prepared_marks};

use numbers::{clear_marks, clear_words};
use open::contents_sound;
use refusals::Refusal;
use rules_states::{first_out, mark_affected, settle_states};
use sound_places::SoundImage;
use stored::parts::Image;
use stored_header::words_needed;

// Why no state is turned: a refusal, or the position of the first changed vertex that is n or more.
#[derive(Clone, Copy, Debug, PartialEq, Eq)]
pub enum SettleRefusal {
    Refused(Refusal),
    BadChanged(usize),
}

impl SettleRefusal {
    // The number that the documents give it.
    pub fn number(self) -> u32
        ensures { result ≡ settle_number self }
    {
        match self {
            SettleRefusal::Refused(r) => r.number(),
            SettleRefusal::BadChanged(_) => 14,
        }
    }

    // Its extra number.
    pub fn extra(self) -> usize
        ensures { result ≡ settle_extra self }
    {
        match self {
            SettleRefusal::Refused(r) => r.extra() as usize,
            SettleRefusal::BadChanged(at) => at,
        }
    }
}

impl From<Refusal> for SettleRefusal {
    ghost from_gives = { λ r e. e ≡ Refused r };

    fn from(r: Refusal) -> SettleRefusal {
        SettleRefusal::Refused(r)
    }
}

// The first of the refusals 10, 11, 12, 13, 6, 14 and 15 that applies; or n, and of the marks below n those of the vertices that a changed vertex reaches are 1, the
// others 0. The needed words are 0 then and after 15, and the marks below n after 15; the refusals before leave them as they were.
pub fn prepare(
    least: usize,
    most: usize,
    index: &[u8],
    changed: &[u32],
    marks: &mut [u8],
    work: &mut [u32],
) -> Result<usize, SettleRefusal>
    ensures own { Own result }
    ensures result_value { prepared_of result ≡ prepared_answer (forms_taken least most) index.now changed.now (length marks.old) (length work.old) }
    ensures marks_after { marks.new ≡ prepared_marks (forms_taken least most) index.now changed.now marks.old (length work.old) }
    ensures work_after { work.new ≡ rules_work (forms_taken least most) index.now changed.now (length marks.old) work.old }
{
    let l = stored_header::admit(least, most, index, marks.len(), work.len())?;
    if let Some(at) = first_out(changed, l.n) {
        return Err(SettleRefusal::BadChanged(at));
    }
    let image = Image {
        bytes: index,
        layout: l,
    };
    clear_words(work, words_needed(l));
    if !contents_sound(&image, marks) {
        return Err(SettleRefusal::Refused(Refusal::NotSound));
    }
    let sound = SoundImage { image };
    mark_affected(&sound, marks, changed);
    Ok(l.n)
}

// Turns the states of a table by a stored index of a form from `least` to `most`, as far as both lists go: suspect where a changed vertex reaches the vertex of the
// record, unknown where that is n or more, and otherwise as it was; or the first of the refusals 10, 11, 12, 13, 6, 14 (with the position of the first changed
// vertex out of range) and 15 that applies, which leaves every state. Marks below n and the needed words are 0 after success and 15, and untouched by the others.
pub fn settle_lists_taking(
    least: usize,
    most: usize,
    index: &[u8],
    changed: &[u32],
    marks: &mut [u8],
    work: &mut [u32],
    vertices: &[u32],
    states: &mut [u32],
) -> Result<(), SettleRefusal>
    ensures own { Own result }
    ensures result_value { settled_of result ≡ rules_answer (forms_taken least most) index.now changed.now (length marks.old) (length work.old) }
    ensures marks_after { marks.new ≡ rules_marks (forms_taken least most) index.now changed.now marks.old (length work.old) }
    ensures work_after { work.new ≡ rules_work (forms_taken least most) index.now changed.now (length marks.old) work.old }
    ensures states_after { states.new ≡ rule_states (forms_taken least most) index.now changed.now (length marks.old) (length work.old) vertices.now states.old }
{
    let n = prepare(least, most, index, changed, marks, work)?;
    settle_states(marks, n, vertices, states);
    clear_marks(marks, n);
    Ok(())
}

// The states of a table by a stored index of form 1 or 2.
pub fn settle_lists(
    index: &[u8],
    changed: &[u32],
    marks: &mut [u8],
    work: &mut [u32],
    vertices: &[u32],
    states: &mut [u32],
) -> Result<(), SettleRefusal>
    ensures own { Own result }
    ensures result_value { settled_of result ≡ rules_answer ordinary index.now changed.now (length marks.old) (length work.old) }
    ensures marks_after { marks.new ≡ rules_marks ordinary index.now changed.now marks.old (length work.old) }
    ensures work_after { work.new ≡ rules_work ordinary index.now changed.now (length marks.old) work.old }
    ensures states_after { states.new ≡ rule_states ordinary index.now changed.now (length marks.old) (length work.old) vertices.now states.old }
{
    settle_lists_taking(1, 2, index, changed, marks, work, vertices, states)
}
