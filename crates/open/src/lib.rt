// Opening a stored index: it opens exactly when some edge list and some orders made its bytes.
#![tactic(auto)]

ghost use Rattle.std.specs.Prelude.{◌≡◌, ◌≤◌, length};
ghost use Rattle.lineage.specs.Lists.{cleared};
ghost use Rattle.lineage.specs.Stored.{header_at, form_of};
ghost use Rattle.lineage.specs.Sound.{contents_sound};
ghost use Rattle.lineage.specs.Calls.{forms_taken, host, ordinary, open_answer, open_marks, open_work};
ghost use Rattle.open.specs.Opened.{opened_of};

use numbers::{clear_marks, clear_words};
use refusals::Refusal;
use sound_groups::groups_pass;
use sound_labels::labels_sound;
use sound_ranks::reading::PlacedRows;
use stored::parts::Image;
use stored::reading::{Labels, Numbers, Rows};
use stored_header::{admit, words_needed};

// An index's counts.
#[derive(Clone, Copy, Debug, PartialEq, Eq)]
pub struct Opened {
    pub n: u32,
    pub k: u32,
    pub c: u32,
    pub d: u32,
}

// Whether the contents of bytes whose header passes are sound: whether some edge list and some orders, as its form takes them, yield exactly these bytes. Marks below n are
// 0 afterwards.
pub fn contents_sound(index: &Image, marks: &mut [u8]) -> bool
    requires { index.now.layout.n ≤ length marks.old }
    ensures value { result ≡ contents_sound (form_of (header_at index.now.bytes.now 0)) index.now.bytes.now }
    ensures marks_after { marks.new ≡ cleared index.now.layout.n marks.old }
{
    let l = index.layout;
    let width = l.width;
    let names = Numbers {
        bytes: index.names(),
        width,
        len: l.n,
    };
    let groups = Numbers {
        bytes: index.groups(),
        width,
        len: l.k,
    };
    let levels = Numbers {
        bytes: index.levels(),
        width,
        len: l.k,
    };
    let starts = Numbers {
        bytes: index.starts(),
        width,
        len: l.k + 1,
    };
    let children = Numbers {
        bytes: index.children(),
        width,
        len: l.c,
    };
    let labels = Labels {
        bytes: index.labels(),
        width,
        z: l.stride,
        k: l.k,
        d: l.d,
    };
    if !groups_pass(&names, &groups, &levels, &starts, &children) {
        clear_marks(marks, l.n);
        return false;
    }
    let rows = Rows {
        starts: starts.bytes,
        children: children.bytes,
        width,
        k: l.k,
        c: l.c,
    };
    labels_sound(&PlacedRows { rows }, &labels, marks, l.n)
}

// Opens a stored index of a form from `least` to `most`: refusals 10, 11, 12, 13, 6 and 15 in order, or its counts. Marks below n and the needed words are 0 after
// 15 and after success; the refusals before leave them as they were.
pub fn open_taking(
    least: usize,
    most: usize,
    index: &[u8],
    marks: &mut [u8],
    work: &mut [u32],
) -> Result<Opened, Refusal>
    ensures result_value { opened_of result ≡ open_answer (forms_taken least most) index.now (length marks.old) (length work.old) }
    ensures marks_after { marks.new ≡ open_marks (forms_taken least most) index.now marks.old (length work.old) }
    ensures work_after { work.new ≡ open_work (forms_taken least most) index.now (length marks.old) work.old }
{
    let l = admit(least, most, index, marks.len(), work.len())?;
    let image = Image {
        bytes: index,
        layout: l,
    };
    clear_words(work, words_needed(l));
    if !contents_sound(&image, marks) {
        return Err(Refusal::NotSound);
    }
    Ok(Opened {
        n: l.n as u32,
        k: l.k as u32,
        c: l.c as u32,
        d: l.d as u32,
    })
}

// Opens a stored index of form 1 or 2.
pub fn open(index: &[u8], marks: &mut [u8], work: &mut [u32]) -> Result<Opened, Refusal>
    ensures result_value { opened_of result ≡ open_answer ordinary index.now (length marks.old) (length work.old) }
    ensures marks_after { marks.new ≡ open_marks ordinary index.now marks.old (length work.old) }
    ensures work_after { work.new ≡ open_work ordinary index.now (length marks.old) work.old }
{
    open_taking(1, 2, index, marks, work)
}

// Opens a stored index of form 1, which needs no words.
pub fn open_form1(index: &[u8], marks: &mut [u8]) -> Result<Opened, Refusal>
    ensures result_value { opened_of result ≡ open_answer host index.now (length marks.old) 0 }
    ensures marks_after { marks.new ≡ open_marks host index.now marks.old 0 }
{
    open_taking(1, 1, index, marks, &mut [])
}
