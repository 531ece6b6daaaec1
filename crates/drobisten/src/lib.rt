// The C face as one static library, libdrobisten.a: every export calls the function of its name in the crates face, face_.. and rules_table, and states its clauses again.
// include/drobisten.h is its manual; what each promises follows from what is proved of the function that it calls.
#![tactic(auto)]

ghost use Rattle.std.specs.Prelude.{◌≡◌, length, ◌++◌, drop};
ghost use Rattle.lineage.specs.Calls.{host, open_answer, open_marks, ask_answer, ask_marks, ordinary, turned, open_work, ask_work, list_answer, list_marks, list_work, list_output, turned_input, build_answer, build_work, build_output, build_call, build_call_work, build_call_output, hierarchy};
ghost use Rattle.ask_all.specs.Batch.{batch_answer, batch_answers, batch_marks, batch_work};
ghost use Rattle.face.specs.Host.{host_opened, host_asked, host_asked_all, host_counted, host_said};
ghost use Rattle.convert.specs.Convert.{convert_answer, convert_marks, convert_work, convert_output};
ghost use Rattle.chain.specs.Traced.{chain_answer, chain_marks, chain_work, chain_output};
ghost use Rattle.face_list.specs.Chained.{host_chained};
ghost use Rattle.lineage.specs.Stored.{form3, form2, form4};
ghost use Rattle.build.specs.Input.{input_of};
ghost use Rattle.text.specs.Output.{output};
ghost use Rattle.added.specs.Adding.{add_answer, add_state};
ghost use Rattle.added.specs.Asked.{added_answer, added_marks, added_work};
ghost use Rattle.rules_states.specs.Rules.{rules_answer, rules_marks, rules_work, rule_states};
ghost use Rattle.rules_table.specs.Table.{desk_settled, Allowed};
ghost use Rattle.face_beside.specs.Taken.{host_taken};
ghost use Rattle.build_orders.specs.Input.{graph_of};
ghost use Rattle.matrix_lines.specs.Calls.{matrix_read_answer, matrix_read_sources, matrix_read_targets, matrix_write_answer, matrix_write_output};
ghost use Rattle.face_matrix.specs.Matrix.{host_matrix};
ghost use Rattle.exceptions.specs.Calls.{exceptions_built, exceptions_output, exceptions_opened, exceptions_asked, exception_marks};
ghost use Rattle.exceptions_all.specs.Batch.{all_exceptions, exceptions_answers};
ghost use Rattle.face_exceptions.specs.Lists.{host_lists};
ghost use Rattle.hierarchy.specs.Turn.{turn_answer, turn_output};

use added::Added;
use face::{DrobistenAsked, DrobistenAskedAll, DrobistenCounted, DrobistenOpened, DrobistenSaid};
use face_beside::DrobistenTaken;
use face_exceptions::DrobistenLists;
use face_list::DrobistenChained;
use face_matrix::DrobistenMatrix;
use rules_table::{Rule, RulesSettled};
use text_run::MOST_OUTPUT;

// `open_form1` for the host.
#[unsafe(no_mangle)]
pub extern "C" fn drobisten_open(index: &[u8], marks: &mut [u8]) -> DrobistenOpened
    ensures value { result ≡ host_opened (open_answer host index.now (length marks.old) 0) }
    ensures marks_after { marks.new ≡ open_marks host index.now marks.old 0 }
{
    face::drobisten_open(index, marks)
}

// `ask_form1` for the host.
#[unsafe(no_mangle)]
pub extern "C" fn drobisten_ask(
    index: &[u8],
    marks: &mut [u8],
    source: u32,
    target: u32,
) -> DrobistenAsked
    ensures value { result ≡ host_asked (ask_answer host index.now source target (length marks.old) 0) }
    ensures marks_after { marks.new ≡ ask_marks host index.now source target marks.old 0 }
{
    face::drobisten_ask(index, marks, source, target)
}

// `ask_all_form1` for the host: six numbers a pair, in the order of `DrobistenAsked`.
#[unsafe(no_mangle)]
pub extern "C" fn drobisten_ask_all(
    index: &[u8],
    marks: &mut [u8],
    sources: &[u32],
    targets: &[u32],
    answers: &mut [u32],
) -> DrobistenAskedAll
    ensures value { result ≡ host_asked_all (batch_answer host index.now sources.now targets.now (length marks.old) 0 (length answers.old)) }
    ensures marks_after { marks.new ≡ batch_marks host index.now sources.now targets.now marks.old 0 (length answers.old) }
    ensures answers_after { answers.new ≡ batch_answers host index.now sources.now targets.now (length marks.old) 0 answers.old }
{
    face::drobisten_ask_all(index, marks, sources, targets, answers)
}

// `open::open`.
#[unsafe(no_mangle)]
pub extern "C" fn drobisten_inspect(
    index: &[u8],
    marks: &mut [u8],
    work: &mut [u32],
) -> DrobistenOpened
    ensures value { result ≡ host_opened (open_answer ordinary index.now (length marks.old) (length work.old)) }
    ensures marks_after { marks.new ≡ open_marks ordinary index.now marks.old (length work.old) }
    ensures work_after { work.new ≡ open_work ordinary index.now (length marks.old) work.old }
{
    face_ask::drobisten_inspect(index, marks, work)
}

// `turned::open_turned`.
#[unsafe(no_mangle)]
pub extern "C" fn drobisten_inspect_turned(
    index: &[u8],
    marks: &mut [u8],
    work: &mut [u32],
) -> DrobistenOpened
    ensures value { result ≡ host_opened (open_answer turned index.now (length marks.old) (length work.old)) }
    ensures marks_after { marks.new ≡ open_marks turned index.now marks.old (length work.old) }
    ensures work_after { work.new ≡ open_work turned index.now (length marks.old) work.old }
{
    face_ask::drobisten_inspect_turned(index, marks, work)
}

// `ask::ask`.
#[unsafe(no_mangle)]
pub extern "C" fn drobisten_question(
    index: &[u8],
    marks: &mut [u8],
    work: &mut [u32],
    source: u32,
    target: u32,
) -> DrobistenAsked
    ensures value { result ≡ host_asked (ask_answer ordinary index.now source target (length marks.old) (length work.old)) }
    ensures marks_after { marks.new ≡ ask_marks ordinary index.now source target marks.old (length work.old) }
    ensures work_after { work.new ≡ ask_work ordinary index.now source target (length marks.old) work.old }
{
    face_ask::drobisten_question(index, marks, work, source, target)
}

// `turned::ask_turned`.
#[unsafe(no_mangle)]
pub extern "C" fn drobisten_question_turned(
    index: &[u8],
    marks: &mut [u8],
    work: &mut [u32],
    source: u32,
    target: u32,
) -> DrobistenAsked
    ensures value { result ≡ host_asked (ask_answer turned index.now source target (length marks.old) (length work.old)) }
    ensures marks_after { marks.new ≡ ask_marks turned index.now source target marks.old (length work.old) }
    ensures work_after { work.new ≡ ask_work turned index.now source target (length marks.old) work.old }
{
    face_ask::drobisten_question_turned(index, marks, work, source, target)
}

// `ask_all::ask_all`: six numbers a pair, in the order of `DrobistenAsked`.
#[unsafe(no_mangle)]
pub extern "C" fn drobisten_batch(
    index: &[u8],
    marks: &mut [u8],
    work: &mut [u32],
    sources: &[u32],
    targets: &[u32],
    answers: &mut [u32],
) -> DrobistenAskedAll
    ensures value { result ≡ host_asked_all (batch_answer ordinary index.now sources.now targets.now (length marks.old) (length work.old) (length answers.old)) }
    ensures marks_after { marks.new ≡ batch_marks ordinary index.now sources.now targets.now marks.old (length work.old) (length answers.old) }
    ensures work_after { work.new ≡ batch_work ordinary index.now (length marks.old) work.old }
    ensures answers_after { answers.new ≡ batch_answers ordinary index.now sources.now targets.now (length marks.old) (length work.old) answers.old }
{
    face_ask::drobisten_batch(index, marks, work, sources, targets, answers)
}

// `convert::convert_up`: form 1 as form 2.
#[unsafe(no_mangle)]
pub extern "C" fn drobisten_convert_up(
    index: &[u8],
    marks: &mut [u8],
    out: &mut [u8],
) -> DrobistenCounted
    ensures value { result ≡ host_counted (convert_answer 1 2 index.now (length marks.old) 0 (length out.old)) }
    ensures marks_after { marks.new ≡ convert_marks 1 index.now marks.old 0 }
    ensures out_after { out.new ≡ convert_output 1 2 index.now (length marks.old) 0 out.old }
{
    face_ask::drobisten_convert_up(index, marks, out)
}

// `convert::convert_down`: form 2 as form 1.
#[unsafe(no_mangle)]
pub extern "C" fn drobisten_convert_down(
    index: &[u8],
    marks: &mut [u8],
    work: &mut [u32],
    out: &mut [u8],
) -> DrobistenCounted
    ensures value { result ≡ host_counted (convert_answer 2 1 index.now (length marks.old) (length work.old) (length out.old)) }
    ensures marks_after { marks.new ≡ convert_marks 2 index.now marks.old (length work.old) }
    ensures work_after { work.new ≡ convert_work 2 index.now (length marks.old) work.old }
    ensures out_after { out.new ≡ convert_output 2 1 index.now (length marks.old) (length work.old) out.old }
{
    face_ask::drobisten_convert_down(index, marks, work, out)
}

// `list::list`.
#[unsafe(no_mangle)]
pub extern "C" fn drobisten_list(
    index: &[u8],
    marks: &mut [u8],
    work: &mut [u32],
    out: &mut [u32],
    vertex: u32,
) -> DrobistenCounted
    ensures value { result ≡ host_counted (list_answer ordinary index.now vertex (length marks.old) (length work.old) (length out.old)) }
    ensures marks_after { marks.new ≡ list_marks ordinary index.now vertex marks.old (length work.old) }
    ensures work_after { work.new ≡ list_work ordinary index.now vertex (length marks.old) work.old }
    ensures out_after { out.new ≡ list_output ordinary index.now vertex (length marks.old) (length work.old) out.old }
{
    face_list::drobisten_list(index, marks, work, out, vertex)
}

// `turned::list_turned`.
#[unsafe(no_mangle)]
pub extern "C" fn drobisten_list_turned(
    index: &[u8],
    marks: &mut [u8],
    work: &mut [u32],
    out: &mut [u32],
    vertex: u32,
) -> DrobistenCounted
    ensures value { result ≡ host_counted (list_answer turned index.now vertex (length marks.old) (length work.old) (length out.old)) }
    ensures marks_after { marks.new ≡ list_marks turned index.now vertex marks.old (length work.old) }
    ensures work_after { work.new ≡ list_work turned index.now vertex (length marks.old) work.old }
    ensures out_after { out.new ≡ list_output turned index.now vertex (length marks.old) (length work.old) out.old }
{
    face_list::drobisten_list_turned(index, marks, work, out, vertex)
}

// `chain::chain`.
#[unsafe(no_mangle)]
pub extern "C" fn drobisten_chain(
    index: &[u8],
    marks: &mut [u8],
    work: &mut [u32],
    steps: &mut [u32],
    source: u32,
    target: u32,
) -> DrobistenChained
    ensures value { result ≡ host_chained (chain_answer ordinary index.now source target (length marks.old) (length work.old) (length steps.old)) }
    ensures marks_after { marks.new ≡ chain_marks ordinary index.now source target marks.old (length work.old) }
    ensures work_after { work.new ≡ chain_work ordinary index.now source target (length marks.old) work.old }
    ensures steps_after { steps.new ≡ chain_output ordinary index.now source target (length marks.old) (length work.old) steps.old }
{
    face_list::drobisten_chain(index, marks, work, steps, source, target)
}

// `build::build`.
#[unsafe(no_mangle)]
pub extern "C" fn drobisten_build(
    sources: &[u32],
    targets: &[u32],
    orders: &[u32],
    work: &mut [u32],
    out: &mut [u8],
    form: u32,
    n: u32,
    d: u32,
) -> DrobistenCounted
    ensures value { result ≡ host_counted (build_call form (input_of n sources.now targets.now d orders.now) (length work.old) (length out.old)) }
    ensures work_after { work.new ≡ build_call_work form (input_of n sources.now targets.now d orders.now) work.old }
    ensures out_after { out.new ≡ build_call_output form (input_of n sources.now targets.now d orders.now) (length work.old) out.old }
{
    face_build::drobisten_build(sources, targets, orders, work, out, form, n, d)
}

// `turned::build_turned`.
#[unsafe(no_mangle)]
pub extern "C" fn drobisten_build_turned(
    sources: &[u32],
    targets: &[u32],
    orders: &[u32],
    work: &mut [u32],
    out: &mut [u8],
    n: u32,
    d: u32,
) -> DrobistenCounted
    ensures value { result ≡ host_counted (build_answer form3 (turned_input (input_of n sources.now targets.now d orders.now)) (length work.old) (length out.old)) }
    ensures work_after { work.new ≡ build_work form3 (turned_input (input_of n sources.now targets.now d orders.now)) work.old }
    ensures out_after { out.new ≡ build_output form3 (turned_input (input_of n sources.now targets.now d orders.now)) (length work.old) out.old }
{
    face_build::drobisten_build_turned(sources, targets, orders, work, out, n, d)
}

// `text_run::run`.
#[unsafe(no_mangle)]
pub extern "C" fn drobisten_run(text: &[u8], out: &mut [u8; MOST_OUTPUT]) -> usize
    ensures value { result ≡ length (output text.now) }
    ensures out_after { out.new ≡ output text.now ++ drop result out.old }
{
    face_build::drobisten_run(text, out)
}

// `added::add`.
#[unsafe(no_mangle)]
pub extern "C" fn drobisten_add(state: Added, n: u32, from: u32, to: u32) -> DrobistenTaken
    ensures { result ≡ host_taken (add_answer state.count n from to) (add_state state n from to) }
{
    face_beside::drobisten_add(state, n, from, to)
}

// `added::ask_added`.
#[unsafe(no_mangle)]
pub extern "C" fn drobisten_ask_added(
    index: &[u8],
    marks: &mut [u8],
    work: &mut [u32],
    state: Added,
    source: u32,
    target: u32,
) -> DrobistenSaid
    ensures value { result ≡ host_said (added_answer ordinary index.now state source target (length marks.old) (length work.old)) }
    ensures marks_after { marks.new ≡ added_marks ordinary index.now source target marks.old (length work.old) }
    ensures work_after { work.new ≡ added_work ordinary index.now source target (length marks.old) work.old }
{
    face_beside::drobisten_ask_added(index, marks, work, state, source, target)
}

// `rules::settle_lists`.
#[unsafe(no_mangle)]
pub extern "C" fn drobisten_settle_lists(
    index: &[u8],
    changed: &[u32],
    marks: &mut [u8],
    work: &mut [u32],
    vertices: &[u32],
    states: &mut [u32],
) -> RulesSettled
    ensures value { result ≡ desk_settled (rules_answer ordinary index.now changed.now (length marks.old) (length work.old)) }
    ensures marks_after { marks.new ≡ rules_marks ordinary index.now changed.now marks.old (length work.old) }
    ensures work_after { work.new ≡ rules_work ordinary index.now changed.now (length marks.old) work.old }
    ensures states_after { states.new ≡ rule_states ordinary index.now changed.now (length marks.old) (length work.old) vertices.now states.old }
{
    face_beside::drobisten_settle_lists(index, changed, marks, work, vertices, states)
}

// `matrix_read::read_matrix`.
#[unsafe(no_mangle)]
pub extern "C" fn drobisten_read_matrix(
    text: &[u8],
    sources: &mut [u32],
    targets: &mut [u32],
) -> DrobistenMatrix
    ensures value { result ≡ host_matrix (matrix_read_answer form2 text.now (length sources.old) (length targets.old)) }
    ensures sources_after { sources.new ≡ matrix_read_sources form2 text.now sources.old targets.old }
    ensures targets_after { targets.new ≡ matrix_read_targets form2 text.now sources.old targets.old }
{
    face_matrix::drobisten_read_matrix(text, sources, targets)
}

// `matrix_write::write_matrix`.
#[unsafe(no_mangle)]
pub extern "C" fn drobisten_write_matrix(
    sources: &[u32],
    targets: &[u32],
    out: &mut [u8],
    n: u32,
) -> DrobistenCounted
    ensures value { result ≡ host_counted (matrix_write_answer form2 (graph_of n sources.now targets.now) (length out.old)) }
    ensures out_after { out.new ≡ matrix_write_output form2 (graph_of n sources.now targets.now) out.old }
{
    face_matrix::drobisten_write_matrix(sources, targets, out, n)
}

// `exceptions::build_exceptions`.
#[unsafe(no_mangle)]
pub extern "C" fn drobisten_build_exceptions(
    index: &[u8],
    marks: &mut [u8],
    out: &mut [u8],
) -> DrobistenCounted
    ensures value { result ≡ host_counted (exceptions_built index.now (length marks.old) (length out.old)) }
    ensures marks_after { marks.new ≡ exception_marks index.now marks.old }
    ensures out_after { out.new ≡ exceptions_output index.now (length marks.old) out.old }
{
    face_exceptions::drobisten_build_exceptions(index, marks, out)
}

// `exceptions::open_exceptions`.
#[unsafe(no_mangle)]
pub extern "C" fn drobisten_open_exceptions(
    index: &[u8],
    lists: &[u8],
    marks: &mut [u8],
) -> DrobistenLists
    ensures value { result ≡ host_lists (exceptions_opened index.now lists.now (length marks.old)) }
    ensures marks_after { marks.new ≡ exception_marks index.now marks.old }
{
    face_exceptions::drobisten_open_exceptions(index, lists, marks)
}

// `exceptions::ask_exceptions`.
#[unsafe(no_mangle)]
pub extern "C" fn drobisten_ask_exceptions(
    index: &[u8],
    lists: &[u8],
    marks: &mut [u8],
    source: u32,
    target: u32,
) -> DrobistenSaid
    ensures value { result ≡ host_said (exceptions_asked index.now lists.now source target (length marks.old)) }
    ensures marks_after { marks.new ≡ exception_marks index.now marks.old }
{
    face_exceptions::drobisten_ask_exceptions(index, lists, marks, source, target)
}

// `exceptions_all::ask_all_exceptions`: three numbers a pair, in the order of `DrobistenSaid`.
#[unsafe(no_mangle)]
pub extern "C" fn drobisten_ask_all_exceptions(
    index: &[u8],
    lists: &[u8],
    marks: &mut [u8],
    sources: &[u32],
    targets: &[u32],
    answers: &mut [u32],
) -> DrobistenAskedAll
    ensures value { result ≡ host_asked_all (all_exceptions index.now lists.now sources.now targets.now (length marks.old) (length answers.old)) }
    ensures marks_after { marks.new ≡ exception_marks index.now marks.old }
    ensures answers_after { answers.new ≡ exceptions_answers index.now lists.now sources.now targets.now (length marks.old) answers.old }
{
    face_exceptions::drobisten_ask_all_exceptions(index, lists, marks, sources, targets, answers)
}

// `build::build_hierarchy`.
#[unsafe(no_mangle)]
pub extern "C" fn drobisten_build_hierarchy(
    sources: &[u32],
    targets: &[u32],
    orders: &[u32],
    work: &mut [u32],
    out: &mut [u8],
    n: u32,
    d: u32,
) -> DrobistenCounted
    ensures value { result ≡ host_counted (build_answer form4 (input_of n sources.now targets.now d orders.now) (length work.old) (length out.old)) }
    ensures work_after { work.new ≡ build_work form4 (input_of n sources.now targets.now d orders.now) work.old }
    ensures out_after { out.new ≡ build_output form4 (input_of n sources.now targets.now d orders.now) (length work.old) out.old }
{
    face_hierarchy::drobisten_build_hierarchy(sources, targets, orders, work, out, n, d)
}

// `hierarchy::open_hierarchy`.
#[unsafe(no_mangle)]
pub extern "C" fn drobisten_inspect_hierarchy(
    index: &[u8],
    marks: &mut [u8],
    work: &mut [u32],
) -> DrobistenOpened
    ensures value { result ≡ host_opened (open_answer hierarchy index.now (length marks.old) (length work.old)) }
    ensures marks_after { marks.new ≡ open_marks hierarchy index.now marks.old (length work.old) }
    ensures work_after { work.new ≡ open_work hierarchy index.now (length marks.old) work.old }
{
    face_hierarchy::drobisten_inspect_hierarchy(index, marks, work)
}

// `hierarchy::ask_hierarchy`.
#[unsafe(no_mangle)]
pub extern "C" fn drobisten_question_hierarchy(
    index: &[u8],
    marks: &mut [u8],
    work: &mut [u32],
    source: u32,
    target: u32,
) -> DrobistenAsked
    ensures value { result ≡ host_asked (ask_answer hierarchy index.now source target (length marks.old) (length work.old)) }
    ensures marks_after { marks.new ≡ ask_marks hierarchy index.now source target marks.old (length work.old) }
    ensures work_after { work.new ≡ ask_work hierarchy index.now source target (length marks.old) work.old }
{
    face_hierarchy::drobisten_question_hierarchy(index, marks, work, source, target)
}

// `hierarchy::to_hierarchy`: form 2 as form 4.
#[unsafe(no_mangle)]
pub extern "C" fn drobisten_to_hierarchy(
    index: &[u8],
    marks: &mut [u8],
    work: &mut [u32],
    out: &mut [u8],
) -> DrobistenCounted
    ensures value { result ≡ host_counted (turn_answer 2 4 index.now (length marks.old) (length work.old) (length out.old)) }
    ensures marks_after { marks.new ≡ convert_marks 2 index.now marks.old (length work.old) }
    ensures work_after { work.new ≡ convert_work 2 index.now (length marks.old) work.old }
    ensures out_after { out.new ≡ turn_output 2 4 index.now (length marks.old) (length work.old) out.old }
{
    face_hierarchy::drobisten_to_hierarchy(index, marks, work, out)
}

// `hierarchy::from_hierarchy`: form 4 as form 2.
#[unsafe(no_mangle)]
pub extern "C" fn drobisten_from_hierarchy(
    index: &[u8],
    marks: &mut [u8],
    work: &mut [u32],
    out: &mut [u8],
) -> DrobistenCounted
    ensures value { result ≡ host_counted (turn_answer 4 2 index.now (length marks.old) (length work.old) (length out.old)) }
    ensures marks_after { marks.new ≡ convert_marks 4 index.now marks.old (length work.old) }
    ensures work_after { work.new ≡ convert_work 4 index.now (length marks.old) work.old }
    ensures out_after { out.new ≡ turn_output 4 2 index.now (length marks.old) (length work.old) out.old }
{
    face_hierarchy::drobisten_from_hierarchy(index, marks, work, out)
}

// Settles a table of rules by a stored index of form 1 or 2.
#[unsafe(no_mangle)]
pub extern "C" fn drobisten_settle_rules(
    index: &[u8],
    changed: &[u32],
    marks: &mut [u8],
    work: &mut [u32],
    rules: &mut [Rule],
) -> RulesSettled
    ensures { Allowed ordinary index.now changed.now marks.old work.old rules.old result marks.new work.new rules.new }
{
    rules_table::drobisten_settle_rules(index, changed, marks, work, rules)
}
