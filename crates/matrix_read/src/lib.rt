// A Matrix Market text read into an edge list (document 02, [1]). The text is looked over first, to its last line, so that a bad one leaves the lists as they were;
// then the entries are read again and stored.
#![tactic(auto)]

ghost use Rattle.std.specs.Prelude.{◌++◌, ◌≡◌, ◌≤◌, length, drop};
ghost use Rattle.text_lines.specs.Lines.{lf, pieces};
ghost use Rattle.matrix_lines.specs.Matrix.{is_entry, run, ends};
ghost use Rattle.matrix_lines.specs.Reader.{RunInto};
ghost use Rattle.matrix_read.specs.Entries.{entry_in, size_in};
ghost use Rattle.matrix_read.specs.Over.{entries_from, Surveyed};
ghost use Rattle.matrix_read.specs.Answer.{Answered};

use matrix_lines::{LineKind, header_stands, kind_at, read_row, skip_comments};
use stored_header::form_row;
use text_lines::Block;

// An entry that was read, its ends from 0 on, and where the next line begins.
#[derive(Clone, Copy, Debug, PartialEq, Eq)]
struct Entry {
    source: u32,
    target: u32,
    next: usize,
}

// Two numbers, each from 1 to n.
fn read_pair(text: &[u8], at: usize, n: u32) -> Option<Entry>
    ensures { result ≡ entry_in n at (drop at text.now) }
{
    let mut pair = [0u32; 2];
    let next = read_row(text, at, 2, &mut pair)?;
    let [u, v] = pair;
    if u == 0 || n < u || v == 0 || n < v {
        return None;
    }
    Some(Entry {
        source: u - 1,
        target: v - 1,
        next,
    })
}

// An entry is a row; no comment stands behind the size line.
fn read_entry(text: &[u8], at: usize, n: u32) -> Option<Entry>
    ensures { result ≡ entry_in n at (drop at text.now) }
{
    match kind_at(text, at) {
        LineKind::Row => read_pair(text, at, n),
        LineKind::Comment => None,
        LineKind::Neither => None,
    }
}

// The size line that was read: n, the number of entries, and where the next line begins.
#[derive(Clone, Copy, Debug, PartialEq, Eq)]
struct Size {
    n: u32,
    entries: u32,
    next: usize,
}

// Three numbers, as many rows as columns.
fn read_three(text: &[u8], at: usize) -> Option<Size>
    ensures { result ≡ size_in at (drop at text.now) }
{
    let mut sizes = [0u32; 3];
    let next = read_row(text, at, 3, &mut sizes)?;
    let [n, columns, entries] = sizes;
    if n != columns {
        return None;
    }
    Some(Size { n, entries, next })
}

// The size line is a row.
fn read_size(text: &[u8], at: usize) -> Option<Size>
    ensures { result ≡ size_in at (drop at text.now) }
{
    match kind_at(text, at) {
        LineKind::Row => read_three(text, at),
        LineKind::Comment | LineKind::Neither => None,
    }
}

// The entry lines that stand first, at most `most`.
fn good_entries(text: &[u8], at: usize, n: u32, most: usize) -> Block
    requires { at ≤ length text.now }
    ensures { RunInto text.now at (run (is_entry n) most (pieces lf (drop at text.now))) result.count result.at }
{
    let mut p = at;
    for i in 0..most {
        let Some(entry) = read_entry(text, p, n) else {
            return Block { count: i, at: p };
        };
        p = entry.next;
    }
    Block { count: most, at: p }
}

// What a text says, its entries counted and found good: n, how many, and where they begin.
#[derive(Clone, Copy, Debug, PartialEq, Eq)]
struct Survey {
    n: u32,
    entries: usize,
    at: usize,
}

// One header, comments, one size line, as many entries as it says, and the end. The error is the first bad line.
fn look_over(text: &[u8]) -> Result<Survey, usize>
    ensures { Surveyed text.now result }
{
    if !header_stands(text) {
        return Err(1);
    }
    let c = skip_comments(text, 49);
    let Some(size) = read_size(text, c.at) else {
        return Err(c.count + 2);
    };
    let most = size.entries as usize;
    let e = good_entries(text, size.next, size.n, most);
    if e.count < most || e.at < text.len() {
        return Err(c.count + e.count + 3);
    }
    Ok(Survey {
        n: size.n,
        entries: most,
        at: size.next,
    })
}

// Reads the entries again, `count` of them, and stores their ends.
fn store_entries(
    text: &[u8],
    at: usize,
    n: u32,
    count: usize,
    sources: &mut [u32],
    targets: &mut [u32],
)
    requires at_in_bounds { (at ≤ length text.now) × (length (entries_from n count text.now at).taken ≡ count) }
    requires count_in_bounds { (count ≤ length sources.old) × (count ≤ length targets.old) }
    ensures sources_after { sources.new ≡ ends 0 (entries_from n count text.now at).taken ++ drop count sources.old }
    ensures targets_after { targets.new ≡ ends 1 (entries_from n count text.now at).taken ++ drop count targets.old }
{
    let mut p = at;
    for i in 0..count {
        let Some(entry) = read_entry(text, p, n) else {
            return;
        };
        sources[i] = entry.source;
        targets[i] = entry.target;
        p = entry.next;
    }
}

// n and the number of entries.
#[derive(Clone, Copy, Debug, PartialEq, Eq)]
pub struct MatrixRead {
    pub n: u32,
    pub edges: usize,
}

// Why a text was not read: it is bad, and its first bad line; a list is shorter than the entries; n, or the entries, are beyond form 2's bounds.
// A line's number need not fit 32 bits.
#[derive(Clone, Copy, Debug, PartialEq, Eq)]
pub enum MatrixRefusal {
    BadMatrix(usize),
    ListShort(usize),
    ManyVertices,
    ManyEdges,
}

impl MatrixRefusal {
    ghost use Rattle.matrix_read.specs.Answer.{number_of, extra_of};

    // The number that the documents give it.
    pub fn number(self) -> u32
        ensures { result ≡ number_of self }
    {
        match self {
            MatrixRefusal::BadMatrix(_) => 18,
            MatrixRefusal::ListShort(_) => 16,
            MatrixRefusal::ManyVertices => 1,
            MatrixRefusal::ManyEdges => 3,
        }
    }

    // Its extra number.
    pub fn extra(self) -> usize
        ensures { result ≡ extra_of self }
    {
        match self {
            MatrixRefusal::BadMatrix(extra) | MatrixRefusal::ListShort(extra) => extra,
            MatrixRefusal::ManyVertices | MatrixRefusal::ManyEdges => 0,
        }
    }
}

pub fn read_matrix(
    text: &[u8],
    sources: &mut [u32],
    targets: &mut [u32],
) -> Result<MatrixRead, MatrixRefusal>
    ensures { Answered text.now sources.old targets.old result sources.new targets.new }
{
    let Survey { n, entries, at } = match look_over(text) {
        Ok(survey) => survey,
        Err(line) => {
            return Err(MatrixRefusal::BadMatrix(line));
        }
    };
    if sources.len() < entries || targets.len() < entries {
        return Err(MatrixRefusal::ListShort(entries));
    }
    let form = form_row(2);
    if form.vertices < n as usize {
        return Err(MatrixRefusal::ManyVertices);
    }
    if form.edges < entries {
        return Err(MatrixRefusal::ManyEdges);
    }
    store_entries(text, at, n, entries, sources, targets);
    Ok(MatrixRead { n, edges: entries })
}
