// The calls on the stored index of a plain hierarchy, form 4 (document 02, [14]): open, ask, and convert from form 2 and back. A question is decided by containment of
// outer intervals, and no group is opened.
#![tactic(auto)]

ghost use Rattle.std.specs.Prelude.{true, false, ◌||◌, cond, ◌≡◌, [], ◌∷◌, ◌≤◌, ◌<◌, eqb, length, replicate, None};
ghost use Rattle.lineage.specs.Lists.{upto, first_of, cleared};
ghost use Rattle.lineage.specs.Question.{answer};
ghost use Rattle.lineage.specs.Stored.{form_of};
ghost use Rattle.lineage.specs.Sound.{shared};
ghost use Rattle.lineage.specs.Calls.{outcome, hierarchy, contents_check, index_in, said_of, open_answer, open_marks, open_work, ask_answer, ask_marks, ask_work};
ghost use Rattle.numbers.specs.Found.{found_below};
ghost use Rattle.numbers.specs.Put.{put};
ghost use Rattle.open.specs.Opened.{opened_of};
ghost use Rattle.ask.specs.Asked.{asked_of, marks_laid};
ghost use Rattle.convert.specs.Convert.{converted, convert_marks, convert_work};
ghost use Rattle.convert.specs.Converted.{converted_of};
ghost use Rattle.hierarchy_labels.specs.Pairs.{by_reason};
ghost use Rattle.hierarchy.specs.Turn.{turn_answer, turn_output};
ghost use Rattle.hierarchy.specs.Turned.{Turned};
ghost use Rattle.hierarchy.specs.Fit.{Plain, Partners, Wide, Between};

use ask::Asked;
use hierarchy_labels::decide;
use numbers::{clear_words, num};
use open::{Opened, contents_sound};
use refusals::Refusal;
use sound_parents::first_shared;
use sound_places::SoundImage;
use stored::parts::Image;
use stored::reading::{Labels, Numbers};
use stored_header::{Layout, admit, form_row, lay_out, words_needed};

// Opens a stored index of form 4: refusals 10 to 13, 6 and 15 in order, or its counts. Marks below n and the needed words are 0 after 15 and after success; the refusals
// before leave them as they were.
pub fn open_hierarchy(index: &[u8], marks: &mut [u8], work: &mut [u32]) -> Result<Opened, Refusal>
    ensures result_value { opened_of result ≡ open_answer hierarchy index.now (length marks.old) (length work.old) }
    ensures marks_after { marks.new ≡ open_marks hierarchy index.now marks.old (length work.old) }
    ensures work_after { work.new ≡ open_work hierarchy index.now (length marks.old) work.old }
{
    open::open_taking(4, 4, index, marks, work)
}

// The reason for the answer between two vertices, which tells all of it.
fn reason_between(index: &SoundImage, u: usize, v: usize) -> u32
    requires plain { Plain index.now.image.layout }
    requires u_lt_n { (u < index.now.image.layout.n) × (v < index.now.image.layout.n) }
    ensures { answer (index_in index.now.image.bytes.now) u v ≡ by_reason result (replicate index.now.image.layout.n 0) }
{
    let l = index.image.layout;
    let levels = index.image.levels();
    let labels = index.image.labels();
    let x = index.place(u);
    let t = index.place(v);
    decide(levels, labels, l.width, l.k, x, t)
}

// The number of the labelling that decided under this reason: the one that there is, or 0.
fn deciding_for(reason: u32) -> u32
    ensures { result ≡ cond (eqb reason 2 || eqb reason 4) 1 0 }
{
    if (reason == 2) | (reason == 4) { 1 } else { 0 }
}

// The question on bytes of a layout, for vertices below n: 15, or the answer. The marks below n are 0 after either.
fn ask_laid(index: &Image, u: usize, v: usize, marks: &mut [u8]) -> Result<Asked, Refusal>
    requires plain { Plain index.now.layout }
    requires u_lt_n { (u < index.now.layout.n) × ((v < index.now.layout.n) × (index.now.layout.n ≤ length marks.old)) }
    ensures result_value { asked_of result ≡ outcome (contents_check index.now.bytes.now ∷ []) (said_of (answer (index_in index.now.bytes.now) u v)) }
    ensures marks_after { marks.new ≡ marks_laid index.now.bytes.now u v marks.old }
{
    if !contents_sound(index, marks) {
        return Err(Refusal::NotSound);
    }
    let reason = reason_between(&SoundImage { image: *index }, u, v);
    Ok(Asked {
        says: reason <= 2,
        reason,
        opened: 0,
        deciding: deciding_for(reason),
    })
}

// Whether the source reaches the target, by the index of form 4 that the bytes hold: refusals 10 to 13, 6, 14 and 15 in order, or the answer under one of the reasons 1
// to 4. Marks below n and the needed words are 0 after the answer and after 15; the refusals before leave both as they were.
pub fn ask_hierarchy(
    index: &[u8],
    source: u32,
    target: u32,
    marks: &mut [u8],
    work: &mut [u32],
) -> Result<Asked, Refusal>
    ensures result_value { asked_of result ≡ ask_answer hierarchy index.now source target (length marks.old) (length work.old) }
    ensures marks_after { marks.new ≡ ask_marks hierarchy index.now source target marks.old (length work.old) }
    ensures work_after { work.new ≡ ask_work hierarchy index.now source target (length marks.old) work.old }
{
    let l = admit(4, 4, index, marks.len(), work.len())?;
    let u = source as usize;
    let v = target as usize;
    if l.n <= u {
        return Err(Refusal::BadVertex(0));
    }
    if l.n <= v {
        return Err(Refusal::BadVertex(1));
    }
    let image = Image {
        bytes: index,
        layout: l,
    };
    clear_words(work, words_needed(l));
    ask_laid(&image, u, v, marks)
}

// Writes the index of sound bytes at the other of the forms 2 and 4. All that stands between header and labels is the same numbers at both.
fn write_plain(index: &SoundImage, form: usize, to: Layout, out: &mut [u8])
    requires between { Between index.now.image.bytes.now index.now.image.layout form to }
    requires total_in_bounds { to.total ≤ length out.old }
    ensures { out.new ≡ put out.old 0 (converted (form_of form) index.now.image.bytes.now) }
{
    let l = index.image.layout;
    let count = l.n + (3 * l.k + 1 + l.c);
    let labels = Labels {
        bytes: index.image.labels(),
        width: 4,
        z: l.stride,
        k: l.k,
        d: 1,
    };
    stored_header::write_header(out, form, to);
    numbers::copy_numbers(
        out,
        48,
        4,
        numbers::numbers_from(index.image.bytes, 4, 12, count),
        4,
        count,
    );
    hierarchy_labels::write_turned(out, to.labels, &labels, to.stride)
}

// At a form of plain hierarchies, the first group by place that is a child of two others, if one is; none at any other form. Marks below n are 0 before and afterwards.
fn first_child_of_two(index: &SoundImage, tree: bool, marks: &mut [u8]) -> Option<usize>
    requires { (index.now.image.layout.n ≤ length marks.old) × (marks.old ≡ cleared index.now.image.layout.n marks.old) }
    ensures value { result ≡ cond tree (found_below index.now.image.layout.k (first_of (shared (index_in index.now.image.bytes.now).children) (upto index.now.image.layout.k) index.now.image.layout.k)) None }
    ensures marks_unchanged { marks.new ≡ marks.old }
{
    if !tree {
        return None;
    }
    let l = index.image.layout;
    let children = Numbers {
        bytes: index.image.children(),
        width: l.width,
        len: l.c,
    };
    first_shared(&children, marks, l.n, l.k)
}

// Sound bytes turned into the form with this number: refusals 4, 22 and 9, or what is written.
fn turn_sound(
    index: &SoundImage,
    form: usize,
    marks: &mut [u8],
    out: &mut [u8],
) -> Result<u32, Refusal>
    requires wide { Wide index.now.image.bytes.now index.now.image.layout form }
    requires d_value { (form_of form).tree ≡ false → index.now.image.layout.d ≡ 1 }
    requires n_in_bounds { (index.now.image.layout.n ≤ length marks.old) × (marks.old ≡ cleared index.now.image.layout.n marks.old) }
    ensures turned { Turned (form_of form) index.now.image.bytes.now out.old result out.new }
    ensures marks_unchanged { marks.new ≡ marks.old }
{
    let l = index.image.layout;
    let row = form_row(form);
    let to = lay_out(4, row.stride, l.n, l.k, l.c, l.d);
    let short = out.len() < to.total;
    if row.tree & (l.d != 1) {
        return Err(Refusal::BadLabellings);
    }
    if let Some(first) = first_child_of_two(index, row.tree, marks) {
        let name = num(index.image.groups(), l.width, first);
        return Err(Refusal::SharedChild(name as u32));
    }
    if short {
        return Err(Refusal::OutputShort(to.total as u32));
    }
    write_plain(index, form, to, out);
    Ok(to.total as u32)
}

// Turns a stored index of form `from` into form `to`, of the forms 2 and 4: the first of the refusals 10 to 13, 6, 15, 4, 22 and 9 that applies, or the length of what is
// written to the front of the output. The output behind it is untouched, and all of it by every refusal. Marks below n and the needed words are 0 after 15 and what comes
// behind it; the refusals before leave them as they were.
fn turn_between(
    from: usize,
    to: usize,
    index: &[u8],
    marks: &mut [u8],
    work: &mut [u32],
    out: &mut [u8],
) -> Result<u32, Refusal>
    requires { Partners from to }
    ensures result_value { converted_of result ≡ turn_answer from to index.now (length marks.old) (length work.old) (length out.old) }
    ensures marks_after { marks.new ≡ convert_marks from index.now marks.old (length work.old) }
    ensures work_after { work.new ≡ convert_work from index.now (length marks.old) work.old }
    ensures out_after { out.new ≡ turn_output from to index.now (length marks.old) (length work.old) out.old }
{
    let layout = admit(from, from, index, marks.len(), work.len())?;
    let image = Image {
        bytes: index,
        layout,
    };
    clear_words(work, words_needed(layout));
    if !contents_sound(&image, marks) {
        return Err(Refusal::NotSound);
    }
    turn_sound(&SoundImage { image }, to, marks, out)
}

// Turns an index of form 2 into form 4, where it has one labelling and is a plain hierarchy.
pub fn to_hierarchy(
    index: &[u8],
    marks: &mut [u8],
    work: &mut [u32],
    out: &mut [u8],
) -> Result<u32, Refusal>
    ensures result_value { converted_of result ≡ turn_answer 2 4 index.now (length marks.old) (length work.old) (length out.old) }
    ensures marks_after { marks.new ≡ convert_marks 2 index.now marks.old (length work.old) }
    ensures work_after { work.new ≡ convert_work 2 index.now (length marks.old) work.old }
    ensures out_after { out.new ≡ turn_output 2 4 index.now (length marks.old) (length work.old) out.old }
{
    turn_between(2, 4, index, marks, work, out)
}

// Turns an index of form 4 into form 2, with m = s.
pub fn from_hierarchy(
    index: &[u8],
    marks: &mut [u8],
    work: &mut [u32],
    out: &mut [u8],
) -> Result<u32, Refusal>
    ensures result_value { converted_of result ≡ turn_answer 4 2 index.now (length marks.old) (length work.old) (length out.old) }
    ensures marks_after { marks.new ≡ convert_marks 4 index.now marks.old (length work.old) }
    ensures work_after { work.new ≡ convert_work 4 index.now (length marks.old) work.old }
    ensures out_after { out.new ≡ turn_output 4 2 index.now (length marks.old) (length work.old) out.old }
{
    turn_between(4, 2, index, marks, work, out)
}
