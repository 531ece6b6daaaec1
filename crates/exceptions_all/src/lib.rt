// Asking many pairs by exception lists: index and lists are checked once, and each pair gets the answer of a single question, by three numbers: refusal, extra, yes.
#![tactic(auto)]

ghost use Rattle.std.specs.Prelude.{◌≡◌, [], ◌∷◌, ◌+◌, ◌*◌, ◌≤◌, length};
ghost use Rattle.lineage.specs.Calls.{index_in};
ghost use Rattle.laws_exceptions.specs.Exceptions.{encode_exceptions, says_by_exceptions};
ghost use Rattle.refusals.specs.Refusals.{number_of, extra_of};
ghost use Rattle.numbers.specs.Put.{put};
ghost use Rattle.exceptions.specs.Calls.{exception_marks};
ghost use Rattle.exceptions_all.specs.Pairs.{pair_three, threes, by_place, Ready};
ghost use Rattle.exceptions_all.specs.Batch.{all_exceptions, exceptions_answers};
ghost use Rattle.ask_all.specs.Batched.{batched_of, Own};

use ask_all::BatchRefusal;
use ask_pairs::places::lay_out;
use exceptions::admit_lists;
use exceptions_ask::reaches;
use refusals::Refusal;
use sound_places::SoundImage;
use stored::reading::Labels;
use stored_header::MOST_VERTICES_FORM_1;

// Writes three numbers from position at on.
fn put_three(answers: &mut [u32], at: usize, refusal: u32, extra: u32, yes: u32)
    requires { at + 3 ≤ length answers.old }
    ensures { answers.new ≡ put answers.old at (refusal ∷ extra ∷ yes ∷ []) }
{
    answers[at] = refusal;
    answers[at + 1] = extra;
    answers[at + 2] = yes;
}

// Writes those of a refusal.
fn put_refused(answers: &mut [u32], at: usize, r: Refusal)
    requires { at + 3 ≤ length answers.old }
    ensures { answers.new ≡ put answers.old at (number_of r ∷ extra_of r ∷ 0 ∷ []) }
{
    put_three(answers, at, r.number(), r.extra(), 0)
}

// Answers one pair, with the place of every vertex's group in a table: 14, source first, or yes or no.
fn put_pair(
    labels: &Labels,
    lists: &[u8],
    places: &[u32],
    u: usize,
    v: usize,
    answers: &mut [u32],
    at: usize,
)
    requires ready { Ready labels.now lists.now places.now }
    requires at_in_bounds { at + 3 ≤ length answers.old }
    ensures { answers.new ≡ put answers.old at (pair_three (length places.now) (by_place labels.now lists.now places.now) u v) }
{
    if places.len() <= u {
        put_refused(answers, at, Refusal::BadVertex(0));
        return;
    }
    if places.len() <= v {
        put_refused(answers, at, Refusal::BadVertex(1));
        return;
    }
    let x = places[u] as usize;
    let y = places[v] as usize;
    let yes = reaches(labels, lists, x, y);
    put_three(answers, at, 0, 0, yes as u32)
}

// Answers the pairs one by one.
fn ask_each(
    labels: &Labels,
    lists: &[u8],
    places: &[u32],
    sources: &[u32],
    targets: &[u32],
    answers: &mut [u32],
)
    requires ready { Ready labels.now lists.now places.now }
    requires sources_len { (length sources.now ≡ length targets.now) × (3 * length sources.now ≤ length answers.old) }
    ensures { answers.new ≡ put answers.old 0 (threes (length places.now) (by_place labels.now lists.now places.now) sources.now targets.now (length sources.now)) }
{
    for i in 0..sources.len() {
        let u = sources[i] as usize;
        let v = targets[i] as usize;
        put_pair(labels, lists, places, u, v, answers, 3 * i);
    }
}

// Answers the pairs over sound bytes and lists that belong to them: the places are laid out once, in words that suffice.
fn ask_placed(
    index: &SoundImage,
    lists: &[u8],
    places: &mut [u32],
    sources: &[u32],
    targets: &[u32],
    answers: &mut [u32],
)
    requires n_bound { (index.now.image.layout.n ≤ 4096) × ((index.now.image.layout.n ≤ length places.old) × (lists.now ≡ encode_exceptions (index_in index.now.image.bytes.now))) }
    requires sources_len { (length sources.now ≡ length targets.now) × (3 * length sources.now ≤ length answers.old) }
    ensures { answers.new ≡ put answers.old 0 (threes index.now.image.layout.n (says_by_exceptions (index_in index.now.image.bytes.now)) sources.now targets.now (length sources.now)) }
{
    let l = index.image.layout;
    let names = index.image.names();
    let groups = index.image.groups();
    let labels = Labels {
        bytes: index.image.labels(),
        width: l.width,
        z: l.stride,
        k: l.k,
        d: l.d,
    };
    let table = &mut places[..l.n];
    lay_out(names, groups, l.width, l.n, l.k, table);
    ask_each(&labels, lists, table, sources, targets, answers)
}

// The same with the table of places in an array.
fn ask_sound(
    index: &SoundImage,
    lists: &[u8],
    sources: &[u32],
    targets: &[u32],
    answers: &mut [u32],
)
    requires n_bound { (index.now.image.layout.n ≤ 4096) × (lists.now ≡ encode_exceptions (index_in index.now.image.bytes.now)) }
    requires sources_len { (length sources.now ≡ length targets.now) × (3 * length sources.now ≤ length answers.old) }
    ensures { answers.new ≡ put answers.old 0 (threes index.now.image.layout.n (says_by_exceptions (index_in index.now.image.bytes.now)) sources.now targets.now (length sources.now)) }
{
    let mut places = [0u32; MOST_VERTICES_FORM_1];
    ask_placed(index, lists, &mut places, sources, targets, answers)
}

// Answers all pairs by three numbers each, over a stored index of form 1 and its exception lists: refusals 10 to 13, 15, 20, 2 and 16 in order, or the number of
// pairs. A refusal leaves the answer list as it was. Marks below n are 0 after 15, 20, 2, 16 and an answer; 10 to 13 leave them as they were.
pub fn ask_all_exceptions(
    index: &[u8],
    lists: &[u8],
    sources: &[u32],
    targets: &[u32],
    marks: &mut [u8],
    answers: &mut [u32],
) -> Result<usize, BatchRefusal>
    ensures own { Own result }
    ensures result_value { batched_of result ≡ all_exceptions index.now lists.now sources.now targets.now (length marks.old) (length answers.old) }
    ensures marks_after { marks.new ≡ exception_marks index.now marks.old }
    ensures answers_after { answers.new ≡ exceptions_answers index.now lists.now sources.now targets.now (length marks.old) answers.old }
{
    let sound = admit_lists(index, lists, marks)?;
    let pairs = sources.len();
    if pairs != targets.len() {
        return Err(BatchRefusal::Refused(Refusal::ListsDiffer));
    }
    if answers.len() / 3 < pairs {
        return Err(BatchRefusal::AnswersShort(pairs));
    }
    ask_sound(&sound, lists, sources, targets, answers);
    Ok(pairs)
}
