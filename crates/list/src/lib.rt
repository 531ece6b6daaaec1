// The downstream list: all vertices downstream of a vertex, rising (document 01, "Downstream list"; document 02, [2] and [6]).
#![tactic(auto)]

ghost use Rattle.std.specs.Prelude.{◌≡◌, ◌≤◌, ◌<◌, length};
ghost use Rattle.lineage.specs.Lists.{cleared};
ghost use Rattle.lineage.specs.Question.{downstream};
ghost use Rattle.lineage.specs.Calls.{forms_taken, ordinary, index_in, list_answer, list_marks, list_work, list_output};
ghost use Rattle.list.specs.Listed.{listed_of, Fills};

pub mod listing;

use listing::{Listing, in_own_list};
use numbers::{clear_marks, clear_words};
use open::contents_sound;
use refusals::Refusal;
use sound_places::SoundImage;
use stored::parts::Image;
use stored::reading::Numbers;
use stored_header::words_needed;

// The list of bytes whose contents are sound, on marks that are 0 below n, and are so afterwards: refusal 16, or the vertices.
fn list_sound(
    index: &SoundImage,
    u: usize,
    marks: &mut [u8],
    out: &mut [u32],
) -> Result<u32, Refusal>
    requires n_in_bounds { (index.now.image.layout.n ≤ length marks.old) × (u < index.now.image.layout.n) }
    requires marks_value { marks.old ≡ cleared index.now.image.layout.n marks.old }
    ensures fills { Fills (downstream (index_in index.now.image.bytes.now) u) out.old result out.new }
    ensures marks_unchanged { marks.new ≡ marks.old }
{
    let n = index.image.layout.n;
    reach::mark_reached(index, marks, u);
    let names = Numbers {
        bytes: index.image.names(),
        width: index.image.layout.width,
        len: n,
    };
    let listing = Listing {
        names,
        marks,
        u,
        own: in_own_list(&names, u),
    };
    let count = listing.count_listed();
    if out.len() < count {
        clear_marks(marks, n);
        return Err(Refusal::ListShort(count as u32));
    }
    listing.write_listed(out);
    clear_marks(marks, n);
    Ok(count as u32)
}

// All vertices downstream of the given one in a stored index of a form from `least` to `most`, rising, written to the front of the out list, with their count; or the
// first of the refusals 10, 11, 12, 13, 6, 14, 15 and 16 that applies. The vertex itself is among them where its group has more than one vertex. The out list behind
// them is untouched, and all of it by every refusal. Marks below n and the needed words are 0 after a list, 15 and 16; the refusals before leave them as they were.
pub fn list_taking(
    least: usize,
    most: usize,
    index: &[u8],
    vertex: u32,
    marks: &mut [u8],
    work: &mut [u32],
    out: &mut [u32],
) -> Result<u32, Refusal>
    ensures result_value { listed_of result ≡ list_answer (forms_taken least most) index.now vertex (length marks.old) (length work.old) (length out.old) }
    ensures marks_after { marks.new ≡ list_marks (forms_taken least most) index.now vertex marks.old (length work.old) }
    ensures work_after { work.new ≡ list_work (forms_taken least most) index.now vertex (length marks.old) work.old }
    ensures out_after { out.new ≡ list_output (forms_taken least most) index.now vertex (length marks.old) (length work.old) out.old }
{
    let l = stored_header::admit(least, most, index, marks.len(), work.len())?;
    let u = vertex as usize;
    if l.n <= u {
        return Err(Refusal::BadVertex(0));
    }
    let image = Image {
        bytes: index,
        layout: l,
    };
    clear_words(work, words_needed(l));
    if !contents_sound(&image, marks) {
        return Err(Refusal::NotSound);
    }
    let sound = SoundImage { image };
    list_sound(&sound, u, marks, out)
}

// The list of a stored index of form 1 or 2.
pub fn list(
    index: &[u8],
    vertex: u32,
    marks: &mut [u8],
    work: &mut [u32],
    out: &mut [u32],
) -> Result<u32, Refusal>
    ensures result_value { listed_of result ≡ list_answer ordinary index.now vertex (length marks.old) (length work.old) (length out.old) }
    ensures marks_after { marks.new ≡ list_marks ordinary index.now vertex marks.old (length work.old) }
    ensures work_after { work.new ≡ list_work ordinary index.now vertex (length marks.old) work.old }
    ensures out_after { out.new ≡ list_output ordinary index.now vertex (length marks.old) (length work.old) out.old }
{
    list_taking(1, 2, index, vertex, marks, work, out)
}
