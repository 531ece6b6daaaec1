// Converting a stored index: the bytes of one form as those of another, without the edge list (document 02, [7]).
#![tactic(auto)]

ghost use Rattle.std.specs.Prelude.{true, ◌≡◌, ◌≤◌, ◌<◌, length, get_or};
ghost use Rattle.lineage.specs.Numbers.{written};
ghost use Rattle.lineage.specs.Stored.{counts_in, form_of, is_form, section};
ghost use Rattle.numbers.specs.Put.{put};
ghost use Rattle.stored_header.specs.Header.{counts, offsets_of};
ghost use Rattle.convert.specs.Convert.{converted, beyond, convert_answer, convert_marks, convert_work, convert_output};
ghost use Rattle.convert.specs.Converted.{converted_of, Turned};
ghost use Rattle.convert.specs.Fit.{Turns};

use numbers::clear_words;
use open::contents_sound;
use refusals::Refusal;
use sound_places::SoundImage;
use stored::parts;
use stored::parts::Image;
use stored_header::{Layout, words_needed};

// Copies the numbers of section i to where the other layout has it, in its width. Each width has its own call, so that the machine steps by a number that it knows.
fn copy_section(index: &SoundImage, form: usize, to: Layout, out: &mut [u8], i: usize)
    requires turns { Turns index.now form to }
    requires i_bound { (i < 6) × (to.total ≤ length out.old) }
    ensures { out.new ≡ put out.old (get_or (offsets_of to) i 0) (written to.width (section index.now.image.layout.width index.now.image.layout.stride (counts_in index.now.image.bytes.now) index.now.image.bytes.now i)) }
{
    let l = index.image.layout;
    let at = parts::offset(to, i);
    let size = parts::size(l, i);
    let from = index.image.section(i);
    if to.width == 2 {
        return numbers::copy_numbers(out, at, 2, from, l.width, size);
    }
    numbers::copy_numbers(out, at, 4, from, l.width, size)
}

// Writes the index of sound bytes at another form: its header, and then section after section.
fn write_as(index: &SoundImage, form: usize, to: Layout, out: &mut [u8])
    requires turns { Turns index.now form to }
    requires total_in_bounds { to.total ≤ length out.old }
    ensures { out.new ≡ put out.old 0 (converted (form_of form) index.now.image.bytes.now) }
{
    stored_header::write_header(out, form, to);
    for i in 0..6 {
        copy_section(index, form, to, out, i);
    }
}

// Whether n, k or c is beyond the form with this number.
fn is_beyond(form: usize, l: Layout) -> bool
    ensures { result ≡ beyond (form_of form) (counts l.n l.k l.c l.d) }
{
    let row = stored_header::form_row(form);
    (row.vertices < l.n) | ((row.vertices < l.k) | (row.entries < l.c))
}

// Sound bytes turned into the form with this number, which has as many numbers by place: refusals 19 and 9, or what is written.
fn convert_sound(index: &SoundImage, form: usize, out: &mut [u8]) -> Result<u32, Refusal>
    requires { (is_form form ≡ true) × ((form_of form).by_place ≡ index.now.image.layout.stride) }
    ensures { Turned (form_of form) index.now.image.bytes.now out.old result out.new }
{
    let l = index.image.layout;
    let row = stored_header::form_row(form);
    let to = stored_header::lay_out(row.width, row.stride, l.n, l.k, l.c, l.d);
    let beyond = is_beyond(form, l);
    let short = out.len() < to.total;
    if beyond {
        return Err(Refusal::BeyondForm);
    }
    if short {
        return Err(Refusal::OutputShort(to.total as u32));
    }
    write_as(index, form, to, out);
    Ok(to.total as u32)
}

// Turns a stored index of form `from` into form `to`, none of pairs: the first of the refusals 10, 11, 12, 13, 6, 15, 19 and 9 that applies, or the length of what is written to the
// front of the output. The output behind it is untouched, and all of it by every refusal. Marks below n and the needed words are 0 after 15 and what comes behind it;
// the refusals before leave them as they were.
fn convert_between(
    from: usize,
    to: usize,
    index: &[u8],
    marks: &mut [u8],
    work: &mut [u32],
    out: &mut [u8],
) -> Result<u32, Refusal>
    requires { (is_form to ≡ true) × ((from ≤ 3) × (to ≤ 3)) }
    ensures result_value { converted_of result ≡ convert_answer from to index.now (length marks.old) (length work.old) (length out.old) }
    ensures marks_after { marks.new ≡ convert_marks from index.now marks.old (length work.old) }
    ensures work_after { work.new ≡ convert_work from index.now (length marks.old) work.old }
    ensures out_after { out.new ≡ convert_output from to index.now (length marks.old) (length work.old) out.old }
{
    let layout = stored_header::admit(from, from, index, marks.len(), work.len())?;
    let image = Image {
        bytes: index,
        layout,
    };
    clear_words(work, words_needed(layout));
    if !contents_sound(&image, marks) {
        return Err(Refusal::NotSound);
    }
    convert_sound(&SoundImage { image }, to, out)
}

// Turns an index of form 1 into form 2. Form 1 needs no words.
pub fn convert_up(index: &[u8], marks: &mut [u8], out: &mut [u8]) -> Result<u32, Refusal>
    ensures result_value { converted_of result ≡ convert_answer 1 2 index.now (length marks.old) 0 (length out.old) }
    ensures marks_after { marks.new ≡ convert_marks 1 index.now marks.old 0 }
    ensures out_after { out.new ≡ convert_output 1 2 index.now (length marks.old) 0 out.old }
{
    let mut none = [0u32; 0];
    convert_between(1, 2, index, marks, &mut none, out)
}

// Turns an index of form 2 into form 1, where it fits.
pub fn convert_down(
    index: &[u8],
    marks: &mut [u8],
    work: &mut [u32],
    out: &mut [u8],
) -> Result<u32, Refusal>
    ensures result_value { converted_of result ≡ convert_answer 2 1 index.now (length marks.old) (length work.old) (length out.old) }
    ensures marks_after { marks.new ≡ convert_marks 2 index.now marks.old (length work.old) }
    ensures work_after { work.new ≡ convert_work 2 index.now (length marks.old) work.old }
    ensures out_after { out.new ≡ convert_output 2 1 index.now (length marks.old) (length work.old) out.old }
{
    convert_between(2, 1, index, marks, work, out)
}
