// Build: from an edge list and some orders to exactly the bytes of the stored form, in lent memory.
#![tactic(auto)]

ghost use Rattle.std.specs.Prelude.{None, true, cond, ◌≡◌, ◌+◌, ◌^◌, ◌≤◌, ◌<◌, length};
ghost use Rattle.lineage.specs.Lists.{upto, first_of, part};
ghost use Rattle.lineage.specs.Stored.{form4, form_of, is_form};
ghost use Rattle.lineage.specs.Calls.{work_needed, build_early, build_answer, build_output, build_work, build_call, build_call_output, build_call_work, outcome};
ghost use Rattle.stored_header.specs.Header.{row_of};
ghost use Rattle.build_orders.specs.Input.{graph_of};
ghost use Rattle.numbers.specs.Found.{found_below};
ghost use Rattle.build_indexed.specs.Shared.{row_shared};
ghost use Rattle.build.specs.Input.{input_of, form_by, RowFit};
ghost use Rattle.build.specs.Answers.{checked_of, built_of, LateBuilt};
ghost use Rattle.build.specs.Admitted.{Admitted};

use refusals::Refusal;
use stored_header::Row;

// Checks 1 to 7: lengths against the bounds of a form's row, then the edge ends. Returns the words of work memory that are needed.
fn early(
    row: Row,
    n: usize,
    sources: &[u32],
    targets: &[u32],
    orders: &[u32],
    d: usize,
    work: usize,
) -> Result<usize, Refusal>
    requires { RowFit row }
    ensures { checked_of result ≡ outcome (build_early (form_by 0 row) (input_of n sources.now targets.now d orders.now) work) (work_needed (graph_of n sources.now targets.now)) }
{
    let most_vertices = row.vertices;
    let most_edges = row.edges;
    let most_labellings = row.labellings;
    let edges = sources.len();
    if most_vertices < n {
        return Err(Refusal::ManyVertices);
    }
    if edges != targets.len() {
        return Err(Refusal::ListsDiffer);
    }
    if most_edges < edges {
        return Err(Refusal::ManyEdges);
    }
    if d == 0 || most_labellings < d {
        return Err(Refusal::BadLabellings);
    }
    if orders.len() != d * n {
        return Err(Refusal::BadOrderList);
    }
    let needed = 16 * n + 4 * edges + 64;
    if work < needed {
        return Err(Refusal::WorkShort(needed as u32));
    }
    if let Some(bad) = build_orders::bad_edge(n, sources, targets) {
        return Err(Refusal::BadEdge(bad as u32));
    }
    Ok(needed)
}

// The first group that keeps a graph out of a form: at a form of plain hierarchies the first that is a child of two others, by where the rows of parents start.
fn first_kept_out(tree: bool, starts: &[u32], k: usize) -> Option<usize>
    requires { length starts.now ≡ k + 1 }
    ensures { result ≡ cond tree (found_below k (first_of (row_shared starts.now) (upto k) k)) None }
{
    if tree {
        build_indexed::first_shared(starts, k)
    } else {
        None
    }
}

// Checks 8, 22 and 9, and the build: groups and children first, as 22 and the total length depend on them; and nothing is written before the output is known to be long
// enough.
fn late(
    form: usize,
    row: Row,
    n: usize,
    sources: &[u32],
    targets: &[u32],
    orders: &[u32],
    d: usize,
    work: &mut [u32],
    out: &mut [u8],
) -> Result<u32, Refusal>
    requires form_bound { form < 2 ^ 32 }
    requires row_fit { RowFit row }
    requires admitted { Admitted (form_by form row) (input_of n sources.now targets.now d orders.now) (length work.old) }
    ensures { LateBuilt (form_by form row) (input_of n sources.now targets.now d orders.now) work.old out.old (built_of result) work.new out.new }
{
    let edges = sources.len();
    if let Some(bad) = build_orders::bad_order(orders, d, n, work, 0) {
        return Err(Refusal::BadOrder(bad as u32));
    }
    let found = build_indexed::condensed(n, sources, targets, work);
    let l = stored_header::lay_out(row.width, row.stride, n, found.k, found.c, d);
    let total = l.total as u32;
    let parents = 3 * n;
    let starts = &work[parents..parents + found.k + 1];
    if let Some(shared) = first_kept_out(row.tree, starts, found.k) {
        return Err(Refusal::SharedChild(work[n + shared]));
    }
    if out.len() < l.total {
        return Err(Refusal::OutputShort(total));
    }
    build_indexed::write_index(out, form, l, edges, orders, work);
    Ok(total)
}

// A build at a form of the table, with the form's row: checks 1 to 7 alter nothing, and what comes behind them ends with the needed words at 0.
pub fn build_form(
    form: usize,
    row: Row,
    n: usize,
    sources: &[u32],
    targets: &[u32],
    orders: &[u32],
    d: usize,
    work: &mut [u32],
    out: &mut [u8],
) -> Result<u32, Refusal>
    requires form_value { is_form form ≡ true }
    requires row_value { row ≡ row_of form }
    ensures result_value { built_of result ≡ build_answer (form_of form) (input_of n sources.now targets.now d orders.now) (length work.old) (length out.old) }
    ensures work_after { work.new ≡ build_work (form_of form) (input_of n sources.now targets.now d orders.now) work.old }
    ensures out_after { out.new ≡ build_output (form_of form) (input_of n sources.now targets.now d orders.now) (length work.old) out.old }
{
    let needed = early(row, n, sources, targets, orders, d, work.len())?;
    let built = late(form, row, n, sources, targets, orders, d, work, out);
    numbers::clear_words(work, needed);
    built
}

// Builds the index of an edge list under d orders, at form 1 or 2; any other form is refused before all else. The output then holds the stored form, and nothing else
// is altered past the needed words of work memory.
pub fn build(
    form: u32,
    n: u32,
    sources: &[u32],
    targets: &[u32],
    orders: &[u32],
    d: u32,
    work: &mut [u32],
    out: &mut [u8],
) -> Result<u32, Refusal>
    ensures result_value { built_of result ≡ build_call form (input_of n sources.now targets.now d orders.now) (length work.old) (length out.old) }
    ensures work_after { work.new ≡ build_call_work form (input_of n sources.now targets.now d orders.now) work.old }
    ensures out_after { out.new ≡ build_call_output form (input_of n sources.now targets.now d orders.now) (length work.old) out.old }
{
    let number = form as usize;
    if !stored_header::takes(1, 2, number) {
        return Err(Refusal::OtherForm(form));
    }
    build_form(
        number,
        stored_header::form_row(number),
        n as usize,
        sources,
        targets,
        orders,
        d as usize,
        work,
        out,
    )
}

// Builds the index of a plain hierarchy under one order, at form 4: 4 unless d is 1, and 22 behind 8 where a group is a child of two others. Otherwise as a build.
pub fn build_hierarchy(
    n: u32,
    sources: &[u32],
    targets: &[u32],
    orders: &[u32],
    d: u32,
    work: &mut [u32],
    out: &mut [u8],
) -> Result<u32, Refusal>
    ensures result_value { built_of result ≡ build_answer form4 (input_of n sources.now targets.now d orders.now) (length work.old) (length out.old) }
    ensures work_after { work.new ≡ build_work form4 (input_of n sources.now targets.now d orders.now) work.old }
    ensures out_after { out.new ≡ build_output form4 (input_of n sources.now targets.now d orders.now) (length work.old) out.old }
{
    build_form(
        4,
        stored_header::form_row(4),
        n as usize,
        sources,
        targets,
        orders,
        d as usize,
        work,
        out,
    )
}
