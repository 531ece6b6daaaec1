// The refusals, in the order of document 01, each with its extra number where that is not 0. These extra numbers are of 32 bits. Those that may be more are in errors of
// their own: the number of pairs of `ask_all`, the position of a changed vertex of `rules`, and 18 and 16 of `matrix_read`.
#![tactic(auto)]

ghost use Rattle.std.specs.Prelude.{◌≡◌};

/// Why a call was refused.
#[derive(Clone, Copy, Debug, PartialEq, Eq)]
pub enum Refusal {
    /// Build: n is over the form's bound.
    ManyVertices,

    /// The two edge lists differ in length.
    ListsDiffer,

    /// There are more edges than the form's bound.
    ManyEdges,

    /// d is not 1 to 5.
    BadLabellings,

    /// The order list is not d x n long.
    BadOrderList,

    /// Work memory is too short; the words needed.
    WorkShort(u32),

    /// An edge end is n or more; the first such edge, from 0.
    BadEdge(u32),

    /// An order is no permutation; the first such order, from 0.
    BadOrder(u32),

    /// The output is shorter than the total length; the bytes needed.
    OutputShort(u32),

    /// Stored bytes: there are fewer than the header's.
    BytesShort,

    /// They are of a form that the call does not take; the form found.
    OtherForm(u32),

    /// A count is out of bounds, k is over n, an offset or the total is not what the counts give, or the bytes are not of that total.
    BadHeader,

    /// Marks are shorter than n; n.
    MarksShort(u32),

    /// A vertex is n or more; 0 for a source, 1 for a target.
    BadVertex(u32),

    /// The contents are not sound.
    NotSound,

    /// The out list is too short; the count needed.
    ListShort(u32),

    /// The program's text is bad; the line, or 0.
    BadText(u32),

    /// Conversion: n, k or c is beyond the form's bounds.
    BeyondForm,

    /// The exception lists do not belong to the index.
    OtherLists,

    /// There are more than 256 added edges.
    ManyAdded,

    /// A group of a plain hierarchy is a child of two others; the smallest such name.
    SharedChild(u32),
}

impl Refusal {
    ghost use Rattle.refusals.specs.Refusals.{number_of, extra_of};

    /// The number that the documents give it, 1 to 22.
    pub fn number(self) -> u32
        ensures { result ≡ number_of self }
    {
        match self {
            Refusal::ManyVertices => 1,
            Refusal::ListsDiffer => 2,
            Refusal::ManyEdges => 3,
            Refusal::BadLabellings => 4,
            Refusal::BadOrderList => 5,
            Refusal::WorkShort(_) => 6,
            Refusal::BadEdge(_) => 7,
            Refusal::BadOrder(_) => 8,
            Refusal::OutputShort(_) => 9,
            Refusal::BytesShort => 10,
            Refusal::OtherForm(_) => 11,
            Refusal::BadHeader => 12,
            Refusal::MarksShort(_) => 13,
            Refusal::BadVertex(_) => 14,
            Refusal::NotSound => 15,
            Refusal::ListShort(_) => 16,
            Refusal::BadText(_) => 17,
            Refusal::BeyondForm => 19,
            Refusal::OtherLists => 20,
            Refusal::ManyAdded => 21,
            Refusal::SharedChild(_) => 22,
        }
    }

    /// Its extra number.
    pub fn extra(self) -> u32
        ensures { result ≡ extra_of self }
    {
        match self {
            Refusal::WorkShort(extra)
            | Refusal::BadEdge(extra)
            | Refusal::BadOrder(extra)
            | Refusal::OutputShort(extra)
            | Refusal::OtherForm(extra)
            | Refusal::MarksShort(extra)
            | Refusal::BadVertex(extra)
            | Refusal::ListShort(extra)
            | Refusal::BadText(extra)
            | Refusal::SharedChild(extra) => extra,
            _ => 0,
        }
    }
}
