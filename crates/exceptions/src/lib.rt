// Exception lists for the small sites (document 02, [8]): built from a stored index, opened beside it, and a question by them. All take an index of form 1.
#![tactic(auto)]

ghost use Rattle.std.specs.Prelude.{◌≡◌, ◌≤◌, length};
ghost use Rattle.lineage.specs.Lists.{cleared};
ghost use Rattle.lineage.specs.Calls.{outcome, index_in};
ghost use Rattle.laws_exceptions.specs.Exceptions.{encode_exceptions};
ghost use Rattle.stored_header.specs.Header.{layout_in};
ghost use Rattle.exceptions.specs.Calls.{sound_checks, listed_checks, exceptions_built, exceptions_output, exceptions_opened, exceptions_asked, exception_marks};
ghost use Rattle.exceptions.specs.Admitted.{admitted_of};
ghost use Rattle.exceptions.specs.Written.{written_of, Fills};
ghost use Rattle.exceptions.specs.Opened.{opened_of};
ghost use Rattle.exceptions.specs.Said.{said_of};

use exceptions_lists::{count_exceptions, exceptions_match, write_exceptions};
use numbers::num;
use open::contents_sound;
use refusals::Refusal;
use sound_places::SoundImage;
use stored::parts::Image;

// Lists that belong to the index: of how many groups, and how many entries they have.
#[derive(Clone, Copy, Debug, PartialEq, Eq)]
pub struct Opened {
    pub groups: u32,
    pub entries: u32,
}

// What every call here checks first of a stored index of form 1: refusals 10 to 13 and 15 in order, or the bytes as a sound image. Marks below n are 0 after 15 and success;
// 10 to 13 leave them as they were.
pub fn admit_sound<'a>(index: &'a [u8], marks: &mut [u8]) -> Result<SoundImage<'a>, Refusal>
    ensures result_value { admitted_of result ≡ outcome (sound_checks index.now (length marks.old)) (index.now, layout_in index.now) }
    ensures marks_after { marks.new ≡ exception_marks index.now marks.old }
{
    let layout = stored_header::admit(1, 1, index, marks.len(), 0)?;
    let image = Image {
        bytes: index,
        layout,
    };
    if !contents_sound(&image, marks) {
        return Err(Refusal::NotSound);
    }
    Ok(SoundImage { image })
}

// And of exception lists beside it, which must be exactly the exceptions of the index: 20 behind them.
pub fn admit_lists<'a>(
    index: &'a [u8],
    lists: &[u8],
    marks: &mut [u8],
) -> Result<SoundImage<'a>, Refusal>
    ensures result_value { admitted_of result ≡ outcome (listed_checks index.now lists.now (length marks.old)) (index.now, layout_in index.now) }
    ensures marks_after { marks.new ≡ exception_marks index.now marks.old }
{
    let sound = admit_sound(index, marks)?;
    if !exceptions_match(&sound, marks, lists) {
        return Err(Refusal::OtherLists);
    }
    Ok(sound)
}

// The lists of bytes whose contents are sound, on marks that are 0 below n, and are so afterwards: refusal 9, or the lists in front of the output.
fn build_sound(index: &SoundImage, marks: &mut [u8], out: &mut [u8]) -> Result<u32, Refusal>
    requires n_in_bounds { (index.now.image.layout.n ≤ length marks.old) × (marks.old ≡ cleared index.now.image.layout.n marks.old) }
    requires n_bound { index.now.image.layout.n ≤ 4096 }
    ensures fills { Fills (encode_exceptions (index_in index.now.image.bytes.now)) out.old result out.new }
    ensures marks_unchanged { marks.new ≡ marks.old }
{
    let entries = count_exceptions(index, marks);
    let needed = 4 * (index.image.layout.k + 3 + entries);
    let total = needed as u32;
    if out.len() < needed {
        return Err(Refusal::OutputShort(total));
    }
    write_exceptions(index, marks, out, entries);
    Ok(total)
}

// Builds the exception lists of a stored index of form 1: refusals 10 to 13, 15 and 9 in order, or their length. The output past them is untouched, and all of it by
// every refusal. Marks below n are 0 after 15, 9 and success; 10 to 13 leave them as they were.
pub fn build_exceptions(index: &[u8], marks: &mut [u8], out: &mut [u8]) -> Result<u32, Refusal>
    ensures result_value { written_of result ≡ exceptions_built index.now (length marks.old) (length out.old) }
    ensures marks_after { marks.new ≡ exception_marks index.now marks.old }
    ensures out_after { out.new ≡ exceptions_output index.now (length marks.old) out.old }
{
    let sound = admit_sound(index, marks)?;
    build_sound(&sound, marks, out)
}

// Opens exception lists beside a stored index of form 1: refusals 10 to 13, 15 and 20 in order, or the number of groups and of entries. They open only if they are
// exactly the exceptions of the index. Marks below n are 0 after 15, 20 and success; 10 to 13 leave them as they were.
pub fn open_exceptions(index: &[u8], lists: &[u8], marks: &mut [u8]) -> Result<Opened, Refusal>
    ensures result_value { opened_of result ≡ exceptions_opened index.now lists.now (length marks.old) }
    ensures marks_after { marks.new ≡ exception_marks index.now marks.old }
{
    let sound = admit_lists(index, lists, marks)?;
    Ok(Opened {
        groups: sound.image.layout.k as u32,
        entries: num(lists, 4, 1) as u32,
    })
}

// Whether the source reaches the target, by exception lists beside a stored index of form 1: refusals 10 to 13, 15, 20 and 14 in order, or yes or no. No group is
// opened. Marks below n are 0 after 15, 20, 14 and an answer; 10 to 13 leave them as they were.
pub fn ask_exceptions(
    index: &[u8],
    lists: &[u8],
    source: u32,
    target: u32,
    marks: &mut [u8],
) -> Result<bool, Refusal>
    ensures result_value { said_of result ≡ exceptions_asked index.now lists.now source target (length marks.old) }
    ensures marks_after { marks.new ≡ exception_marks index.now marks.old }
{
    let sound = admit_lists(index, lists, marks)?;
    let n = sound.image.layout.n;
    let u = source as usize;
    let v = target as usize;
    if n <= u {
        return Err(Refusal::BadVertex(0));
    }
    if n <= v {
        return Err(Refusal::BadVertex(1));
    }
    Ok(exceptions_ask::says(&sound, lists, u, v))
}
