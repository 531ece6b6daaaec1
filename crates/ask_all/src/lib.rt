// Asking a stored index many pairs at once: the bytes are checked once, and each pair gets the answer of a single question.
#![tactic(auto)]

ghost use Rattle.std.specs.Prelude.{◌≡◌, ◌++◌, ◌+◌, ◌≤◌, length, get_or, drop};
ghost use Rattle.lineage.specs.Question.{answer};
ghost use Rattle.lineage.specs.Calls.{outcome, forms_taken, host, ordinary, index_in};
ghost use Rattle.numbers.specs.Put.{put};
ghost use Rattle.numbers.specs.Regions.{Kept};
ghost use Rattle.stored_header.specs.Header.{words_of};
ghost use Rattle.ask_stacked.specs.Words.{stack_words};
ghost use Rattle.ask_pairs.specs.Pairs.{sixes, last_marks};
ghost use Rattle.ask_all.specs.Batch.{pair_in, batch_late, batch_answer, batch_answers, batch_marks, batch_work};
ghost use Rattle.ask_all.specs.declared.BatchRefusal.TheVariants.{Refused};
ghost use Rattle.ask_all.specs.Batched.{batch_number, batch_extra, batched_of, Own, read_of, marks_laid, answers_laid};
ghost use Rattle.ask_all.specs.Lent.{LentPairs};

use ask::Asked;
use ask::sections::Sections;
use numbers::clear_words;
use refusals::Refusal;
use sound_places::SoundImage;
use stored::parts::Image;
use stored_header::{MOST_VERTICES_FORM_1, words_needed};

// Why no pair is answered: a refusal, or an answer list too short for so many pairs.
#[derive(Clone, Copy, Debug, PartialEq, Eq)]
pub enum BatchRefusal {
    Refused(Refusal),
    AnswersShort(usize),
}

impl BatchRefusal {
    // The number that the documents give it.
    pub fn number(self) -> u32
        ensures { result ≡ batch_number self }
    {
        match self {
            BatchRefusal::Refused(r) => r.number(),
            BatchRefusal::AnswersShort(_) => 16,
        }
    }

    // Its extra number.
    pub fn extra(self) -> usize
        ensures { result ≡ batch_extra self }
    {
        match self {
            BatchRefusal::Refused(r) => r.extra() as usize,
            BatchRefusal::AnswersShort(pairs) => pairs,
        }
    }
}

impl From<Refusal> for BatchRefusal {
    ghost from_gives = { λ r e. e ≡ Refused r };

    fn from(r: Refusal) -> BatchRefusal {
        BatchRefusal::Refused(r)
    }
}

// A refusal that stands in an answer list: its two numbers, which may be any.
#[derive(Clone, Copy, Debug, PartialEq, Eq)]
pub struct PairRefusal {
    pub number: u32,
    pub extra: u32,
}

// Answers the pairs over sound bytes, in words that suffice for the walk's stack and the table of places. The marks below n are 0 before; afterwards they are those of the
// last pair that was not refused.
fn ask_sound(
    index: &SoundImage,
    sources: &[u32],
    targets: &[u32],
    marks: &mut [u8],
    work: &mut [u32],
    answers: &mut [u32],
)
    requires pairs { LentPairs index.now.image.layout sources.now targets.now marks.old (length answers.old) }
    requires n_in_bounds { stack_words index.now.image.layout.width index.now.image.layout.n + index.now.image.layout.n ≤ length work.old }
    ensures marks_after { marks.new ≡ last_marks index.now.image.layout.n (answer (index_in index.now.image.bytes.now)) sources.now targets.now (length sources.now) ++ drop index.now.image.layout.n marks.old }
    ensures answers_after { answers.new ≡ put answers.old 0 (sixes index.now.image.layout.n (answer (index_in index.now.image.bytes.now)) sources.now targets.now (length sources.now)) }
    ensures kept { Kept work.old work.new 0 (stack_words index.now.image.layout.width index.now.image.layout.n + index.now.image.layout.n) }
{
    let n = index.image.layout.n;
    ask_pairs::ask_pairs(
        &Sections::of(index),
        sources,
        targets,
        &mut marks[..n],
        work,
        answers,
    )
}

// The same where the words are those that a call is lent beside the bytes: for numbers of 16 bits that may be none, and the table lies in an array.
fn ask_lent(
    index: &SoundImage,
    sources: &[u32],
    targets: &[u32],
    marks: &mut [u8],
    work: &mut [u32],
    answers: &mut [u32],
)
    requires pairs { LentPairs index.now.image.layout sources.now targets.now marks.old (length answers.old) }
    requires n_bound { (index.now.image.layout.width ≡ 2 → index.now.image.layout.n ≤ 4096) × (words_of index.now.image.layout ≤ length work.old) }
    ensures marks_after { marks.new ≡ last_marks index.now.image.layout.n (answer (index_in index.now.image.bytes.now)) sources.now targets.now (length sources.now) ++ drop index.now.image.layout.n marks.old }
    ensures answers_after { answers.new ≡ put answers.old 0 (sixes index.now.image.layout.n (answer (index_in index.now.image.bytes.now)) sources.now targets.now (length sources.now)) }
    ensures kept { Kept work.old work.new 0 (words_of index.now.image.layout) }
{
    if index.image.layout.width == 2 {
        let mut places = [0u32; MOST_VERTICES_FORM_1];
        ask_sound(index, sources, targets, marks, &mut places, answers);
        return;
    }
    ask_sound(index, sources, targets, marks, work, answers)
}

// Answers all pairs over bytes of a layout: 15, 2 and 16 in order, or the number of pairs. Of the words those needed may be altered.
fn ask_laid(
    index: &Image,
    sources: &[u32],
    targets: &[u32],
    marks: &mut [u8],
    work: &mut [u32],
    answers: &mut [u32],
) -> Result<usize, BatchRefusal>
    requires n_in_bounds { index.now.layout.n ≤ length marks.old }
    requires n_bound { (index.now.layout.width ≡ 2 → index.now.layout.n ≤ 4096) × (words_of index.now.layout ≤ length work.old) }
    requires stride_value { index.now.layout.stride ≡ 3 }
    ensures own { Own result }
    ensures result_value { batched_of result ≡ outcome (batch_late index.now.bytes.now sources.now targets.now (length answers.old)) (length sources.now) }
    ensures marks_after { marks.new ≡ marks_laid index.now.bytes.now sources.now targets.now marks.old (length answers.old) }
    ensures answers_after { answers.new ≡ answers_laid index.now.bytes.now sources.now targets.now answers.old }
    ensures kept { Kept work.old work.new 0 (words_of index.now.layout) }
{
    if !open::contents_sound(index, marks) {
        return Err(BatchRefusal::Refused(Refusal::NotSound));
    }
    let pairs = sources.len();
    if pairs != targets.len() {
        return Err(BatchRefusal::Refused(Refusal::ListsDiffer));
    }
    if answers.len() / 6 < pairs {
        return Err(BatchRefusal::AnswersShort(pairs));
    }
    let sound = SoundImage { image: *index };
    ask_lent(&sound, sources, targets, marks, work, answers);
    Ok(pairs)
}

// Answers all pairs by six numbers each, over an index in a form from `least` to `most`, none of pairs: refusals 10 to 13, 6, 15, 2 and 16 in order, or the number of pairs. A refusal
// leaves the answer list as it was; 10 to 13 and 6 leave marks and words too, and behind them the marks below n and the needed words are 0. Without a refusal the marks
// are those of the last pair that was not refused, and the needed words are 0.
pub fn ask_all_taking(
    least: usize,
    most: usize,
    index: &[u8],
    sources: &[u32],
    targets: &[u32],
    marks: &mut [u8],
    work: &mut [u32],
    answers: &mut [u32],
) -> Result<usize, BatchRefusal>
    requires { most ≤ 3 }
    ensures own { Own result }
    ensures result_value { batched_of result ≡ batch_answer (forms_taken least most) index.now sources.now targets.now (length marks.old) (length work.old) (length answers.old) }
    ensures marks_after { marks.new ≡ batch_marks (forms_taken least most) index.now sources.now targets.now marks.old (length work.old) (length answers.old) }
    ensures work_after { work.new ≡ batch_work (forms_taken least most) index.now (length marks.old) work.old }
    ensures answers_after { answers.new ≡ batch_answers (forms_taken least most) index.now sources.now targets.now (length marks.old) (length work.old) answers.old }
{
    let l = stored_header::admit(least, most, index, marks.len(), work.len())?;
    let image = Image {
        bytes: index,
        layout: l,
    };
    let r = ask_laid(&image, sources, targets, marks, work, answers);
    clear_words(work, words_needed(l));
    r
}

// All pairs over a stored index of form 1 or 2.
pub fn ask_all(
    index: &[u8],
    sources: &[u32],
    targets: &[u32],
    marks: &mut [u8],
    work: &mut [u32],
    answers: &mut [u32],
) -> Result<usize, BatchRefusal>
    ensures own { Own result }
    ensures result_value { batched_of result ≡ batch_answer ordinary index.now sources.now targets.now (length marks.old) (length work.old) (length answers.old) }
    ensures marks_after { marks.new ≡ batch_marks ordinary index.now sources.now targets.now marks.old (length work.old) (length answers.old) }
    ensures work_after { work.new ≡ batch_work ordinary index.now (length marks.old) work.old }
    ensures answers_after { answers.new ≡ batch_answers ordinary index.now sources.now targets.now (length marks.old) (length work.old) answers.old }
{
    ask_all_taking(1, 2, index, sources, targets, marks, work, answers)
}

// All pairs over a stored index of form 1, which needs no words.
pub fn ask_all_form1(
    index: &[u8],
    sources: &[u32],
    targets: &[u32],
    marks: &mut [u8],
    answers: &mut [u32],
) -> Result<usize, BatchRefusal>
    ensures own { Own result }
    ensures result_value { batched_of result ≡ batch_answer host index.now sources.now targets.now (length marks.old) 0 (length answers.old) }
    ensures marks_after { marks.new ≡ batch_marks host index.now sources.now targets.now marks.old 0 (length answers.old) }
    ensures answers_after { answers.new ≡ batch_answers host index.now sources.now targets.now (length marks.old) 0 answers.old }
{
    let mut none = [0u32; 0];
    ask_all_taking(1, 1, index, sources, targets, marks, &mut none, answers)
}

// Number p of an answer list; past its end all are 0.
fn number_at(answers: &[u32], p: usize) -> u32
    ensures { result ≡ get_or answers.now p 0 }
{
    if p < answers.len() { answers[p] } else { 0 }
}

// The answer of pair i, read back from an answer list.
pub fn answer_at(answers: &[u32], i: usize) -> Result<Asked, PairRefusal>
    ensures { read_of result ≡ pair_in answers.now i }
{
    if answers.len() <= i {
        return Ok(Asked {
            says: false,
            reason: 0,
            opened: 0,
            deciding: 0,
        });
    }
    let at = 6 * i;
    let number = number_at(answers, at);
    if number != 0 {
        return Err(PairRefusal {
            number,
            extra: number_at(answers, at + 1),
        });
    }
    Ok(Asked {
        says: number_at(answers, at + 2) == 1,
        reason: number_at(answers, at + 3),
        opened: number_at(answers, at + 4),
        deciding: number_at(answers, at + 5),
    })
}
