// Asking a stored index: is the target reached from the source, by which rule, how many groups were opened for it, and which labelling decided.
#![tactic(auto)]

ghost use Rattle.std.specs.Prelude.{◌≡◌, [], ◌∷◌, ◌≤◌, ◌<◌, length};
ghost use Rattle.lineage.specs.Question.{answer};
ghost use Rattle.lineage.specs.Calls.{outcome, forms_taken, host, ordinary, contents_check, index_in, said_of, ask_answer, ask_marks, ask_work};
ghost use Rattle.numbers.specs.Regions.{Kept};
ghost use Rattle.ask_stacked.specs.Words.{stack_words};
ghost use Rattle.ask.specs.Asked.{asked_of, marks_laid};

pub mod question;
pub mod sections;

use numbers::clear_words;
use refusals::Refusal;
use sections::Sections;
use sound_places::SoundImage;
use stored::parts::Image;
use stored_header::words_needed;

// An answer: yes or no, the reason 1 to 6, the number, from 1, of the labelling that decided (0 where none did), and the groups opened. Reason and groups opened, which
// stand beside each other in six numbers, do not here: read as one number they would wait for the two writes.
#[derive(Clone, Copy, Debug, PartialEq, Eq)]
pub struct Asked {
    pub says: bool,
    pub reason: u32,
    pub deciding: u32,
    pub opened: u32,
}

// The question on bytes of a layout, for vertices below n: 15, or the answer. Afterwards the marks below n tell the groups opened, by name, and 15 leaves them 0; of
// the words those that the walk uses for its stack may be altered.
fn ask_laid(
    index: &Image,
    u: usize,
    v: usize,
    marks: &mut [u8],
    work: &mut [u32],
) -> Result<Asked, Refusal>
    requires u_lt_n { (u < index.now.layout.n) × ((v < index.now.layout.n) × ((index.now.layout.n ≤ length marks.old) × (stack_words index.now.layout.width index.now.layout.n ≤ length work.old))) }
    requires stride_value { index.now.layout.stride ≡ 3 }
    ensures result_value { asked_of result ≡ outcome (contents_check index.now.bytes.now ∷ []) (said_of (answer (index_in index.now.bytes.now) u v)) }
    ensures marks_after { marks.new ≡ marks_laid index.now.bytes.now u v marks.old }
    ensures kept { Kept work.old work.new 0 (stack_words index.now.layout.width index.now.layout.n) }
{
    if !open::contents_sound(index, marks) {
        return Err(Refusal::NotSound);
    }
    let sound = SoundImage { image: *index };
    let n = index.layout.n;
    Ok(question::question(&Sections::of(&sound), u, v, &mut marks[..n], work, 1))
}

// Whether the source reaches the target, by the index that the bytes hold, in a form from `least` to `most`, none of pairs: refusals 10 to 13, 6, 14 and 15 in order, or the answer.
// The marks below n then tell the groups opened, by name, and the needed words are 0. The refusals 10 to 14 and 6 leave both as they were; 15 leaves both 0.
pub fn ask_taking(
    least: usize,
    most: usize,
    index: &[u8],
    source: u32,
    target: u32,
    marks: &mut [u8],
    work: &mut [u32],
) -> Result<Asked, Refusal>
    requires { most ≤ 3 }
    ensures result_value { asked_of result ≡ ask_answer (forms_taken least most) index.now source target (length marks.old) (length work.old) }
    ensures marks_after { marks.new ≡ ask_marks (forms_taken least most) index.now source target marks.old (length work.old) }
    ensures work_after { work.new ≡ ask_work (forms_taken least most) index.now source target (length marks.old) work.old }
{
    let l = stored_header::admit(least, most, index, marks.len(), work.len())?;
    let u = source as usize;
    let v = target as usize;
    if l.n <= u {
        return Err(Refusal::BadVertex(0));
    }
    if l.n <= v {
        return Err(Refusal::BadVertex(1));
    }
    let image = Image {
        bytes: index,
        layout: l,
    };
    let r = ask_laid(&image, u, v, marks, work);
    clear_words(work, words_needed(l));
    r
}

// The question on a stored index of form 1 or 2.
pub fn ask(
    index: &[u8],
    source: u32,
    target: u32,
    marks: &mut [u8],
    work: &mut [u32],
) -> Result<Asked, Refusal>
    ensures result_value { asked_of result ≡ ask_answer ordinary index.now source target (length marks.old) (length work.old) }
    ensures marks_after { marks.new ≡ ask_marks ordinary index.now source target marks.old (length work.old) }
    ensures work_after { work.new ≡ ask_work ordinary index.now source target (length marks.old) work.old }
{
    ask_taking(1, 2, index, source, target, marks, work)
}

// The question on a stored index of form 1, which needs no words.
pub fn ask_form1(index: &[u8], source: u32, target: u32, marks: &mut [u8]) -> Result<Asked, Refusal>
    ensures result_value { asked_of result ≡ ask_answer host index.now source target (length marks.old) 0 }
    ensures marks_after { marks.new ≡ ask_marks host index.now source target marks.old 0 }
{
    let mut none = [0u32; 0];
    ask_taking(1, 1, index, source, target, marks, &mut none)
}
