// Writing a Matrix Market file: the text of an edge list in lent memory (document 02, [1]). Its length is told before anything is written.
#![tactic(auto)]

ghost use Rattle.std.specs.Prelude.{◌∷◌, [], ◌≡◌, suc, ◌+◌, ◌^◌, ◌≤◌, ◌<◌, length};
ghost use Rattle.lineage.specs.Stored.{form2};
ghost use Rattle.text_lines.specs.Lines.{decimal};
ghost use Rattle.text_printing.specs.Printer.{Put};
ghost use Rattle.build_orders.specs.Input.{graph_of};
ghost use Rattle.matrix_lines.specs.Matrix.{header, row, ended, entry_rows, matrix_text};
ghost use Rattle.matrix_lines.specs.Calls.{matrix_write_answer, matrix_write_output};
ghost use Rattle.matrix_write.specs.Fit.{Lines};
ghost use Rattle.matrix_write.specs.Written.{written_of};

use refusals::Refusal;
use text_printing::{decimal_length, put_byte, put_number, put_word};

// A vertex as the file counts it, from 1.
fn file_number(v: u32) -> u32
    requires { suc v < 2 ^ 32 }
    ensures { result ≡ suc v }
{
    v + 1
}

// The bytes of a line of two numbers, its LF among them.
fn row_length(x: u32, y: u32) -> usize
    ensures { (result ≡ length (ended (row x (y ∷ []) ∷ []))) × (result ≤ 22) }
{
    decimal_length(x) + decimal_length(y) + 2
}

// The bytes of the header and of the size line.
fn front_length(n: u32, edges: u32) -> usize
    ensures { (result ≡ length (ended (header ∷ row n (n ∷ edges ∷ []) ∷ []))) × (result ≤ 82) }
{
    decimal_length(n) + row_length(n, edges) + 50
}

// The bytes of the whole text: the header and the size line, and then a line for each edge.
fn text_length(n: u32, sources: &[u32], targets: &[u32]) -> usize
    requires { Lines (graph_of n sources.now targets.now) }
    ensures { (result ≡ length (matrix_text (graph_of n sources.now targets.now))) × (result < 2 ^ 32) }
{
    let mut size = front_length(n, sources.len() as u32);
    for edge in 0..sources.len() {
        size += row_length(file_number(sources[edge]), file_number(targets[edge]));
    }
    size
}

// A line of two numbers.
fn put_row(out: &mut [u8], at: usize, x: u32, y: u32) -> usize
    requires { at + (length (decimal x) + length (decimal y) + 2) ≤ length out.old }
    ensures { Put out.old at (ended (row x (y ∷ []) ∷ [])) result out.new }
{
    let a = put_number(out, at, x);
    let b = put_byte(out, a, b' ');
    let c = put_number(out, b, y);
    put_byte(out, c, b'\n')
}

// The header and the size line.
fn put_front(out: &mut [u8], n: u32, edges: u32) -> usize
    requires { length (ended (header ∷ row n (n ∷ edges ∷ []) ∷ [])) ≤ length out.old }
    ensures { Put out.old 0 (ended (header ∷ row n (n ∷ edges ∷ []) ∷ [])) result out.new }
{
    let a = put_word(
        out,
        0,
        b"%%MatrixMarket matrix coordinate pattern general\n",
    );
    let b = put_number(out, a, n);
    let c = put_byte(out, b, b' ');
    put_row(out, c, n, edges)
}

// A line for each edge, in the list's order: its source and its target, counted from 1.
fn put_entries(out: &mut [u8], at: usize, n: u32, sources: &[u32], targets: &[u32]) -> usize
    requires lines { Lines (graph_of n sources.now targets.now) }
    requires targets_in_bounds { at + length (ended (entry_rows sources.now targets.now)) ≤ length out.old }
    ensures { Put out.old at (ended (entry_rows sources.now targets.now)) result out.new }
{
    let mut p = at;
    for i in 0..sources.len() {
        p = put_row(out, p, file_number(sources[i]), file_number(targets[i]));
    }
    p
}

// Writes the text of an edge list to the front of the output, and tells its length; or gives the first of the refusals 1, 2, 3, 7 and 9 that applies, by form 2's
// bounds. The output behind the text is untouched, and all of it by every refusal.
pub fn write_matrix(
    n: u32,
    sources: &[u32],
    targets: &[u32],
    out: &mut [u8],
) -> Result<u32, Refusal>
    ensures result_value { written_of result ≡ matrix_write_answer form2 (graph_of n sources.now targets.now) (length out.old) }
    ensures out_after { out.new ≡ matrix_write_output form2 (graph_of n sources.now targets.now) out.old }
{
    let most = stored_header::form_row(2);
    let edges = sources.len();
    if most.vertices < n as usize {
        return Err(Refusal::ManyVertices);
    }
    if edges != targets.len() {
        return Err(Refusal::ListsDiffer);
    }
    if most.edges < edges {
        return Err(Refusal::ManyEdges);
    }
    if let Some(bad) = build_orders::bad_edge(n as usize, sources, targets) {
        return Err(Refusal::BadEdge(bad as u32));
    }
    let size = text_length(n, sources, targets);
    if out.len() < size {
        return Err(Refusal::OutputShort(size as u32));
    }
    let at = put_front(out, n, edges as u32);
    put_entries(out, at, n, sources, targets);
    Ok(size as u32)
}
