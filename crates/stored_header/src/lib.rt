// The header: twelve 32-bit numbers, checked in the document's order and read, with the marks and the words that every call on stored bytes is lent (10 to 13, then
// 6); and written.
#![tactic(auto)]

ghost use Rattle.std.specs.Prelude.{◌≡◌, ◌+◌, ◌*◌, ◌^◌, ◌≤◌, ◌<◌, eqb, length};
ghost use Rattle.lineage.specs.Lists.{Every};
ghost use Rattle.lineage.specs.Numbers.{Width, written};
ghost use Rattle.lineage.specs.Stored.{header_at, form_of, counts_fit, most_labellings};
ghost use Rattle.lineage.specs.Calls.{outcome, forms_taken, takes, form_checks};
ghost use Rattle.numbers.specs.Bounds.{vertex_bound, entry_bound};
ghost use Rattle.numbers.specs.Put.{put};
ghost use Rattle.stored_header.specs.Header.{Stride, row_of, wide_row, counts, layout_by, layout_in, words_of, offsets_agree, header_of, header_outcome};

use refusals::Refusal;

const HEADER_LENGTH: usize = 48;

pub const MOST_LABELLINGS: usize = 5;

// The vertices that form 1 has at most.
pub const MOST_VERTICES_FORM_1: usize = 4096;

// A row of the table of forms: whether a form has this number, its width and its bounds, how many numbers a labelling has of each group by place, and whether it
// is of plain hierarchies.
#[derive(Clone, Copy)]
pub struct Row {
    pub known: bool,
    pub width: usize,
    pub vertices: usize,
    pub edges: usize,
    pub entries: usize,
    pub labellings: usize,
    pub stride: usize,
    pub tree: bool,
}

// The numbers n, k, c and d, the width of the sections' numbers, how many of them a labelling has of each group by place, and where each
// section starts.
#[derive(Clone, Copy)]
pub struct Layout {
    pub width: usize,
    pub stride: usize,
    pub n: usize,
    pub k: usize,
    pub c: usize,
    pub d: usize,
    pub names: usize,
    pub groups: usize,
    pub levels: usize,
    pub starts: usize,
    pub children: usize,
    pub labels: usize,
    pub total: usize,
}

// The row of a form of 32-bit numbers.
fn wide_row(labellings: usize, stride: usize, tree: bool) -> Row
    ensures { result ≡ wide_row labellings stride tree }
{
    Row {
        known: true,
        width: 4,
        vertices: 200000,
        edges: 1000000,
        entries: 1000000,
        labellings,
        stride,
        tree,
    }
}

// The table of forms; where there is none of this number, the first form's row.
pub fn form_row(number: usize) -> Row
    ensures { result ≡ row_of number }
{
    match number {
        2 | 3 => wide_row(MOST_LABELLINGS, 3, false),
        4 => wide_row(1, 2, true),
        _ => Row {
            known: 1 == number,
            width: 2,
            vertices: MOST_VERTICES_FORM_1,
            edges: 16384,
            entries: 16384,
            labellings: MOST_LABELLINGS,
            stride: 3,
            tree: false,
        },
    }
}

// Whether a call that takes the forms from `least` to `most` takes the one with this number.
pub fn takes(least: usize, most: usize, number: usize) -> bool
    ensures { result ≡ takes (forms_taken least most) number }
{
    let row = form_row(number);
    ((least <= number) & (number <= most)) & row.known
}

// Every count is within the form's bounds, and k is not over n.
fn counts_fit(form: usize, n: usize, k: usize, c: usize, d: usize) -> bool
    ensures { result ≡ counts_fit (form_of form) (counts n k c d) }
{
    let row = form_row(form);
    (n <= row.vertices) & ((k <= n) & ((c <= row.entries) & ((1 <= d) & (d <= row.labellings))))
}

// The numbers of the labels: for each group and labelling z by place and one by rank.
pub fn label_count(z: usize, k: usize, d: usize) -> usize
    requires stride { Stride z }
    requires k_le_vertex_bound { (k ≤ vertex_bound) × (d ≤ most_labellings) }
    ensures { (result ≡ d * ((z + 1) * k)) × (result ≤ most_labellings * (4 * vertex_bound)) }
{
    d * ((z + 1) * k)
}

// Sections of these sizes follow the header without gaps.
pub fn lay_out(width: usize, stride: usize, n: usize, k: usize, c: usize, d: usize) -> Layout
    requires width { Width width }
    requires stride { Stride stride }
    requires n_le_vertex_bound { (n ≤ vertex_bound) × ((k ≤ n) × ((c ≤ entry_bound) × (d ≤ most_labellings))) }
    ensures { result ≡ layout_by width stride (counts n k c d) }
{
    let names = HEADER_LENGTH;
    let groups = names + numbers::bytes_of(width, n);
    let levels = groups + numbers::bytes_of(width, k);
    let starts = levels + numbers::bytes_of(width, k);
    let children = starts + numbers::bytes_of(width, k + 1);
    let labels = children + numbers::bytes_of(width, c);
    let total = labels + numbers::bytes_of(width, label_count(stride, k, d));
    Layout {
        width,
        stride,
        n,
        k,
        c,
        d,
        names,
        groups,
        levels,
        starts,
        children,
        labels,
        total,
    }
}

// Number i of the header is this number.
fn says(index: &[u8], i: usize, number: usize) -> bool
    requires { (i < 12) × (48 ≤ length index.now) }
    ensures { result ≡ eqb (header_at index.now i) number }
{
    numbers::num(index, 4, i) == number
}

// The offsets, the total and the length of the bytes are those of the layout.
fn offsets_fit(index: &[u8], l: Layout) -> bool
    requires { 48 ≤ length index.now }
    ensures { result ≡ offsets_agree index.now l }
{
    let sections = says(index, 5, l.names)
        & (says(index, 6, l.groups)
            & (says(index, 7, l.levels)
                & (says(index, 8, l.starts)
                    & (says(index, 9, l.children)
                        & (says(index, 10, l.labels) & says(index, 11, l.total))))));
    sections & (index.len() == l.total)
}

// The words that a call is lent beside bytes of this layout: none where the numbers are of 16 bits.
pub fn words_needed(l: Layout) -> usize
    requires { (l.n ≤ vertex_bound) × ((l.k ≤ l.n) × (l.c ≤ entry_bound)) }
    ensures { (result ≡ words_of l) × (result ≤ 16 * vertex_bound + 4 * entry_bound + 64) }
{
    if l.width == 2 {
        return 0;
    }
    16 * l.n + 4 * l.c + 64
}

// The checks 10 to 13 and 6, which every call on stored bytes makes before its own, for the forms from `least` to `most` and so many marks and words: the first
// that applies, or the layout.
pub fn admit(
    least: usize,
    most: usize,
    index: &[u8],
    marks: usize,
    words: usize,
) -> Result<Layout, Refusal>
    ensures { header_outcome result ≡ outcome (form_checks (forms_taken least most) index.now marks words) (layout_in index.now) }
{
    if index.len() < HEADER_LENGTH {
        return Err(Refusal::BytesShort);
    }
    let form = numbers::num(index, 4, 0);
    let n = numbers::num(index, 4, 1);
    let k = numbers::num(index, 4, 2);
    let c = numbers::num(index, 4, 3);
    let d = numbers::num(index, 4, 4);
    if !takes(least, most, form) {
        return Err(Refusal::OtherForm(form as u32));
    }
    let row = form_row(form);
    if !counts_fit(form, n, k, c, d) {
        return Err(Refusal::BadHeader);
    }
    let l = lay_out(row.width, row.stride, n, k, c, d);
    if !offsets_fit(index, l) {
        return Err(Refusal::BadHeader);
    }
    if marks < n {
        return Err(Refusal::MarksShort(n as u32));
    }
    let needed = words_needed(l);
    if words < needed {
        return Err(Refusal::WorkShort(needed as u32));
    }
    Ok(l)
}

// Writes the header of a form's number and a layout, all of whose numbers are of 32 bits.
pub fn write_header(out: &mut [u8], form: usize, l: Layout)
    requires in_bounds { 48 ≤ length out.old }
    requires every { Every (λ x. x < 2 ^ 32) (header_of form l) }
    ensures { out.new ≡ put out.old 0 (written 4 (header_of form l)) }
{
    let header = [
        form as u32,
        l.n as u32,
        l.k as u32,
        l.c as u32,
        l.d as u32,
        l.names as u32,
        l.groups as u32,
        l.levels as u32,
        l.starts as u32,
        l.children as u32,
        l.labels as u32,
        l.total as u32,
    ];
    numbers::write_words(out, 0, 4, &header)
}
