// The calls on a turned index, form 3 (document 02, [13]): what feeds this rule? The build turns the edges itself; the others are the calls on any index, told to take
// form 3 alone. A turned question has the turned graph's source: asked from v to u, it says whether v is fed by u.
#![tactic(auto)]

ghost use Rattle.std.specs.Prelude.{◌≡◌, length};
ghost use Rattle.lineage.specs.Stored.{form3};
ghost use Rattle.lineage.specs.Calls.{turned, turned_input, build_answer, build_work, build_output, open_answer, open_marks, open_work, ask_answer, ask_marks, ask_work, list_answer, list_marks, list_work, list_output};
ghost use Rattle.build.specs.Input.{input_of};
ghost use Rattle.build.specs.Answers.{built_of};
ghost use Rattle.open.specs.Opened.{opened_of};
ghost use Rattle.ask.specs.Asked.{asked_of};
ghost use Rattle.list.specs.Listed.{listed_of};

use ask::Asked;
use open::Opened;
use refusals::Refusal;

// Builds the index of the turned edges of an edge list under d orders, at form 3: checks 1 to 9 as of a build, by form 2's bounds.
pub fn build_turned(
    n: u32,
    sources: &[u32],
    targets: &[u32],
    orders: &[u32],
    d: u32,
    work: &mut [u32],
    out: &mut [u8],
) -> Result<u32, Refusal>
    ensures result_value { built_of result ≡ build_answer form3 (turned_input (input_of n sources.now targets.now d orders.now)) (length work.old) (length out.old) }
    ensures work_after { work.new ≡ build_work form3 (turned_input (input_of n sources.now targets.now d orders.now)) work.old }
    ensures out_after { out.new ≡ build_output form3 (turned_input (input_of n sources.now targets.now d orders.now)) (length work.old) out.old }
{
    build::build_form(
        3,
        stored_header::form_row(3),
        n as usize,
        targets,
        sources,
        orders,
        d as usize,
        work,
        out,
    )
}

// Opens a turned index.
pub fn open_turned(index: &[u8], marks: &mut [u8], work: &mut [u32]) -> Result<Opened, Refusal>
    ensures result_value { opened_of result ≡ open_answer turned index.now (length marks.old) (length work.old) }
    ensures marks_after { marks.new ≡ open_marks turned index.now marks.old (length work.old) }
    ensures work_after { work.new ≡ open_work turned index.now (length marks.old) work.old }
{
    open::open_taking(3, 3, index, marks, work)
}

// Whether the source is fed by the target.
pub fn ask_turned(
    index: &[u8],
    source: u32,
    target: u32,
    marks: &mut [u8],
    work: &mut [u32],
) -> Result<Asked, Refusal>
    ensures result_value { asked_of result ≡ ask_answer turned index.now source target (length marks.old) (length work.old) }
    ensures marks_after { marks.new ≡ ask_marks turned index.now source target marks.old (length work.old) }
    ensures work_after { work.new ≡ ask_work turned index.now source target (length marks.old) work.old }
{
    ask::ask_taking(3, 3, index, source, target, marks, work)
}

// The vertices upstream of the given one, rising.
pub fn list_turned(
    index: &[u8],
    vertex: u32,
    marks: &mut [u8],
    work: &mut [u32],
    out: &mut [u32],
) -> Result<u32, Refusal>
    ensures result_value { listed_of result ≡ list_answer turned index.now vertex (length marks.old) (length work.old) (length out.old) }
    ensures marks_after { marks.new ≡ list_marks turned index.now vertex marks.old (length work.old) }
    ensures work_after { work.new ≡ list_work turned index.now vertex (length marks.old) work.old }
    ensures out_after { out.new ≡ list_output turned index.now vertex (length marks.old) (length work.old) out.old }
{
    list::list_taking(3, 3, index, vertex, marks, work, out)
}
