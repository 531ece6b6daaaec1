// The chain of a yes: the group names from source to target, each step to the lowest child that reaches the target (document 02, [4]). One climb marks all groups
// that reach it, so no step asks a question; then the steps are counted, and written where there is room.
#![tactic(auto)]

ghost use Rattle.std.specs.Prelude.{◌≡◌, suc, ◌≤◌, ◌<◌, length};
ghost use Rattle.lineage.specs.Lists.{cleared};
ghost use Rattle.lineage.specs.Question.{place_in};
ghost use Rattle.lineage.specs.Calls.{forms_taken, ordinary, index_in};
ghost use Rattle.numbers.specs.Bounds.{vertex_bound};
ghost use Rattle.reach_sweep.specs.Fit.{Spots};
ghost use Rattle.chain_steps.specs.Steps.{TrailIn, steps_in};
ghost use Rattle.chain.specs.Marks.{climbed_in, Exact};
ghost use Rattle.chain.specs.Traced.{chain_answer, chain_marks, chain_work, chain_output};
ghost use Rattle.chain.specs.Chained.{chained_of, Fills, Shows};

use chain_steps::{count_steps, write_chain};
use numbers::{clear_marks, clear_words};
use open::contents_sound;
use reach_sweep::groups::Groups;
use refusals::Refusal;
use sound_places::SoundImage;
use stored::parts::Image;
use stored::reading::{Numbers, Rows};
use stored_header::words_needed;

// The climb through all ranks, by the first labelling: afterwards a group is marked exactly where it reaches one marked before.
fn climb_up(index: &SoundImage, marks: &mut [u8])
    requires { index.now.image.layout.n ≤ length marks.old }
    ensures { marks.new ≡ climbed_in (index_in index.now.image.bytes.now) marks.old }
{
    reach_climb::climb(&reach::ranks_of(index), marks);
}

// The steps from the marked group at place x, which is at most `lev` high, down to the target: refusal 16, or the steps.
fn show(
    groups: &Groups,
    marks: &[u8],
    steps: &mut [u32],
    t: usize,
    x: usize,
    lev: usize,
) -> Result<Option<u32>, Refusal>
    requires spots { Spots groups.now (length marks.now) }
    requires trail_in { TrailIn groups.now marks.now t x lev }
    requires lev_le_vertex_bound { lev ≤ vertex_bound }
    ensures { Fills (steps_in groups.now marks.now t (suc lev) x) steps.old result steps.new }
{
    let count = count_steps(groups, marks, t, x, lev);
    if steps.len() < count {
        return Err(Refusal::ListShort(count as u32));
    }
    write_chain(groups, marks, steps, t, x, lev);
    Ok(Some(count as u32))
}

// The steps from u's group to v's over sound bytes, where exactly the groups that reach v's are marked: a no, refusal 16, or the steps.
fn trace(
    index: &SoundImage,
    u: usize,
    v: usize,
    marks: &[u8],
    steps: &mut [u32],
) -> Result<Option<u32>, Refusal>
    requires n_in_bounds { (index.now.image.layout.n ≤ length marks.now) × ((u < index.now.image.layout.n) × (v < index.now.image.layout.n)) }
    requires exact { Exact (index_in index.now.image.bytes.now) (place_in (index_in index.now.image.bytes.now) v) marks.now }
    ensures { Shows (index_in index.now.image.bytes.now) u v steps.old result steps.new }
{
    let l = index.image.layout;
    let w = l.width;
    let k = l.k;
    let names = index.image.names();
    let groups = index.image.groups();
    let levels = index.image.levels();
    let starts = index.image.starts();
    let children = index.image.children();
    let names = Numbers {
        bytes: names,
        width: w,
        len: l.n,
    };
    let name = names.get(u);
    if marks[name] != 1 {
        return Ok(None);
    }
    let x = index.place(u);
    let t = index.place(v);
    let levels = Numbers {
        bytes: levels,
        width: w,
        len: k,
    };
    let lev = levels.get(x);
    let groups = Numbers {
        bytes: groups,
        width: w,
        len: k,
    };
    let rows = Rows {
        starts,
        children,
        width: w,
        k,
        c: l.c,
    };
    show(
        &Groups {
            names: groups,
            rows,
        },
        marks,
        steps,
        t,
        x,
        lev,
    )
}

// The chain of bytes whose contents are sound, on marks that are 0 below n, and are so afterwards: a no, refusal 16, or the steps.
fn chain_sound(
    index: &SoundImage,
    u: usize,
    v: usize,
    marks: &mut [u8],
    steps: &mut [u32],
) -> Result<Option<u32>, Refusal>
    requires n_in_bounds { (index.now.image.layout.n ≤ length marks.old) × ((u < index.now.image.layout.n) × (v < index.now.image.layout.n)) }
    requires marks_value { marks.old ≡ cleared index.now.image.layout.n marks.old }
    ensures shows { Shows (index_in index.now.image.bytes.now) u v steps.old result steps.new }
    ensures marks_unchanged { marks.new ≡ marks.old }
{
    reach::mark_group(index, marks, v);
    climb_up(index, marks);
    let r = trace(index, u, v, marks, steps);
    clear_marks(marks, index.image.layout.n);
    r
}

// The chain from source to target in a stored index of a form from `least` to `most`: the group names, from the source's group to the target's, written to the front
// of the list, with their number; a no, which writes nothing; or the first of the refusals 10, 11, 12, 13, 6, 14, 15 and 16 that applies. The list past the last step
// is untouched, and all of it by every refusal. Marks below n and the needed words are 0 after a chain, a no, 15 and 16; the refusals before leave them as they were.
pub fn chain_taking(
    least: usize,
    most: usize,
    index: &[u8],
    source: u32,
    target: u32,
    marks: &mut [u8],
    work: &mut [u32],
    steps: &mut [u32],
) -> Result<Option<u32>, Refusal>
    ensures result_value { chained_of result ≡ chain_answer (forms_taken least most) index.now source target (length marks.old) (length work.old) (length steps.old) }
    ensures marks_after { marks.new ≡ chain_marks (forms_taken least most) index.now source target marks.old (length work.old) }
    ensures work_after { work.new ≡ chain_work (forms_taken least most) index.now source target (length marks.old) work.old }
    ensures steps_after { steps.new ≡ chain_output (forms_taken least most) index.now source target (length marks.old) (length work.old) steps.old }
{
    let l = stored_header::admit(least, most, index, marks.len(), work.len())?;
    let n = l.n;
    let u = source as usize;
    let v = target as usize;
    if n <= u {
        return Err(Refusal::BadVertex(0));
    }
    if n <= v {
        return Err(Refusal::BadVertex(1));
    }
    let image = Image {
        bytes: index,
        layout: l,
    };
    clear_words(work, words_needed(l));
    if !contents_sound(&image, marks) {
        return Err(Refusal::NotSound);
    }
    let sound = SoundImage { image };
    chain_sound(&sound, u, v, marks, steps)
}

// The chain in a stored index of form 1 or 2.
pub fn chain(
    index: &[u8],
    source: u32,
    target: u32,
    marks: &mut [u8],
    work: &mut [u32],
    steps: &mut [u32],
) -> Result<Option<u32>, Refusal>
    ensures result_value { chained_of result ≡ chain_answer ordinary index.now source target (length marks.old) (length work.old) (length steps.old) }
    ensures marks_after { marks.new ≡ chain_marks ordinary index.now source target marks.old (length work.old) }
    ensures work_after { work.new ≡ chain_work ordinary index.now source target (length marks.old) work.old }
    ensures steps_after { steps.new ≡ chain_output ordinary index.now source target (length marks.old) (length work.old) steps.old }
{
    chain_taking(1, 2, index, source, target, marks, work, steps)
}
