// Edges that are added between two builds, kept beside an opened index as 256 pairs and a count (document 02, [10]): one is added, and a question is asked over the
// indexed edges together with the added ones. The state goes by value: its 2 KB are little beside the check that a question makes first.
#![tactic(auto)]

ghost use Rattle.std.specs.Prelude.{◌≡◌, [], ◌∷◌, ◌≤◌, ◌<◌, length};
ghost use Rattle.lineage.specs.Lists.{cleared};
ghost use Rattle.lineage.specs.Calls.{outcome, forms_taken, ordinary, index_in};
ghost use Rattle.build_orders.specs.Input.{graph_of};
ghost use Rattle.reach_rounds.specs.Over.{added_says};
ghost use Rattle.reach_rounds.specs.Rounds.{Low};
ghost use Rattle.added.specs.Adding.{add_answer, add_state, taken_of};
ghost use Rattle.added.specs.Asked.{sources_of, targets_of, bad_added, added_checks, added_answer, added_marks, added_work, asked_added_of};

use numbers::{clear_marks, clear_words};
use open::contents_sound;
use reach_rounds::reach_over;
use refusals::Refusal;
use sound_places::SoundImage;
use stored::parts::Image;
use stored_header::words_needed;

// The most edges that may be added.
const MOST_ADDED: u32 = 256;

// The added edges: the first `count` pairs. What stands behind them may be anything.
#[repr(C)]
#[derive(Clone, Copy)]
pub struct Added {
    pub sources: [u32; 256],
    pub targets: [u32; 256],
    pub count: u32,
}

// Whether the edge was taken, and the state afterwards.
#[derive(Clone, Copy)]
pub struct Adding {
    pub answer: Result<(), Refusal>,
    pub state: Added,
}

// Adds an edge to those beside an index of n vertices: refusal 7 where an end is n or more, 21 where 256 or more stand already, and then nothing changes; otherwise the
// pair stands at the old count, and the count is one more.
pub fn add(state: Added, n: u32, from: u32, to: u32) -> Adding
    ensures answer_value { taken_of result.answer ≡ add_answer state.count n from to }
    ensures state_value { result.state ≡ add_state state n from to }
{
    if n <= from || n <= to {
        return Adding {
            answer: Err(Refusal::BadEdge(0)),
            state,
        };
    }
    let count = state.count;
    if MOST_ADDED <= count {
        return Adding {
            answer: Err(Refusal::ManyAdded),
            state,
        };
    }
    let at = count as usize;
    let mut more = state;
    more.sources[at] = from;
    more.targets[at] = to;
    more.count = count + 1;
    Adding {
        answer: Ok(()),
        state: more,
    }
}

// Whether u reaches v over sound bytes and added edges between their vertices, on marks that are 0 below n, and are so afterwards.
fn says_over(
    index: &SoundImage,
    sources: &[u32],
    targets: &[u32],
    u: usize,
    v: usize,
    marks: &mut [u8],
) -> bool
    requires sources_len { (length sources.now ≡ length targets.now) × (Low index.now.image.layout.n sources.now × Low index.now.image.layout.n targets.now) }
    requires n_in_bounds { (index.now.image.layout.n ≤ length marks.old) × ((u < index.now.image.layout.n) × (v < index.now.image.layout.n)) }
    requires marks_value { marks.old ≡ cleared index.now.image.layout.n marks.old }
    ensures value { result ≡ added_says (index_in index.now.image.bytes.now) sources.now targets.now u v }
    ensures marks_unchanged { marks.new ≡ marks.old }
{
    reach::mark_group(index, marks, u);
    let yes = reach_over(index, sources, targets, marks, v);
    clear_marks(marks, index.image.layout.n);
    yes
}

// The question over sound bytes and added edges: refusal 7 with the first that has an end of n or more; otherwise yes or no.
fn ask_over(
    index: &SoundImage,
    sources: &[u32],
    targets: &[u32],
    u: usize,
    v: usize,
    marks: &mut [u8],
) -> Result<bool, Refusal>
    requires sources_len { (length sources.now ≡ length targets.now) × (length sources.now ≤ 256) }
    requires n_in_bounds { (index.now.image.layout.n ≤ length marks.old) × ((u < index.now.image.layout.n) × (v < index.now.image.layout.n)) }
    requires marks_value { marks.old ≡ cleared index.now.image.layout.n marks.old }
    ensures result_value { asked_added_of result
        ≡ outcome (bad_added (graph_of index.now.image.layout.n sources.now targets.now) ∷ []) (added_says (index_in index.now.image.bytes.now) sources.now targets.now u v) }
    ensures marks_unchanged { marks.new ≡ marks.old }
{
    if let Some(bad) = build_orders::bad_edge(index.image.layout.n, sources, targets) {
        return Err(Refusal::BadEdge(bad as u32));
    }
    Ok(says_over(index, sources, targets, u, v, marks))
}

// The question over sound bytes and the edges that a state holds: refusal 21 for more than 256 of them, then 7; otherwise yes or no.
fn ask_sound(
    index: &SoundImage,
    state: Added,
    u: usize,
    v: usize,
    marks: &mut [u8],
) -> Result<bool, Refusal>
    requires n_in_bounds { (index.now.image.layout.n ≤ length marks.old) × ((u < index.now.image.layout.n) × (v < index.now.image.layout.n)) }
    requires marks_value { marks.old ≡ cleared index.now.image.layout.n marks.old }
    ensures result_value { asked_added_of result
        ≡ outcome (added_checks index.now.image.layout.n state) (added_says (index_in index.now.image.bytes.now) (sources_of state) (targets_of state) u v) }
    ensures marks_unchanged { marks.new ≡ marks.old }
{
    let count = state.count;
    if MOST_ADDED < count {
        return Err(Refusal::ManyAdded);
    }
    let m = count as usize;
    ask_over(index, &state.sources[..m], &state.targets[..m], u, v, marks)
}

// Whether source reaches target over a stored index of a form from `least` to `most` and the edges added beside it: yes or no, or the first of the refusals 10, 11, 12,
// 13, 6, 14, 15, 21 and 7 that applies; 7 has the position of the first added edge with an end of n or more. Marks below n and the needed words are 0 after an answer,
// 15, 21 and 7; the refusals before leave them as they were.
pub fn ask_added_taking(
    least: usize,
    most: usize,
    index: &[u8],
    state: Added,
    source: u32,
    target: u32,
    marks: &mut [u8],
    work: &mut [u32],
) -> Result<bool, Refusal>
    ensures result_value { asked_added_of result ≡ added_answer (forms_taken least most) index.now state source target (length marks.old) (length work.old) }
    ensures marks_after { marks.new ≡ added_marks (forms_taken least most) index.now source target marks.old (length work.old) }
    ensures work_after { work.new ≡ added_work (forms_taken least most) index.now source target (length marks.old) work.old }
{
    let l = stored_header::admit(least, most, index, marks.len(), work.len())?;
    let n = l.n;
    let u = source as usize;
    let v = target as usize;
    if n <= u {
        return Err(Refusal::BadVertex(0));
    }
    if n <= v {
        return Err(Refusal::BadVertex(1));
    }
    let image = Image {
        bytes: index,
        layout: l,
    };
    clear_words(work, words_needed(l));
    if !contents_sound(&image, marks) {
        return Err(Refusal::NotSound);
    }
    let sound = SoundImage { image };
    ask_sound(&sound, state, u, v, marks)
}

// The question over a stored index of form 1 or 2 and the edges added beside it.
pub fn ask_added(
    index: &[u8],
    state: Added,
    source: u32,
    target: u32,
    marks: &mut [u8],
    work: &mut [u32],
) -> Result<bool, Refusal>
    ensures result_value { asked_added_of result ≡ added_answer ordinary index.now state source target (length marks.old) (length work.old) }
    ensures marks_after { marks.new ≡ added_marks ordinary index.now source target marks.old (length work.old) }
    ensures work_after { work.new ≡ added_work ordinary index.now source target (length marks.old) work.old }
{
    ask_added_taking(1, 2, index, state, source, target, marks, work)
}
