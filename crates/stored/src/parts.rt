// Each section as its own stretch of the stored bytes: a part of the lent index. So are the two halves of a labelling and one group's children.
ghost use Rattle.std.specs.Prelude.{◌≡◌, ◌+◌, ◌*◌, ◌≤◌, ◌<◌, length, get_or};
ghost use Rattle.lineage.specs.Numbers.{Width, num_at};
ghost use Rattle.lineage.specs.Stored.{sizes, most_labellings};
ghost use Rattle.numbers.specs.Bounds.{vertex_bound};
ghost use Rattle.numbers.specs.Regions.{Part};
ghost use Rattle.stored_header.specs.Header.{Stride, offsets_of, Laid};
ghost use Rattle.stored.specs.Sections.{Section, ChildrenOf, Labellings};

use stored_header::{Layout, label_count};

// Where section i starts; behind the last of them, where the bytes end.
pub fn offset(l: Layout, i: usize) -> usize
    requires { i < 7 }
    ensures { result ≡ get_or (offsets_of l) i 0 }
{
    let offsets = [
        l.names, l.groups, l.levels, l.starts, l.children, l.labels, l.total,
    ];
    offsets[i]
}

// How many numbers section i has.
pub fn size(l: Layout, i: usize) -> usize
    requires stride { Stride l.stride }
    requires k_le_vertex_bound { (l.k ≤ vertex_bound) × (l.d ≤ most_labellings) }
    requires i_bound { i < 6 }
    ensures { result ≡ get_or (sizes l.stride l.n l.k l.c l.d) i 0 }
{
    let sizes = [l.n, l.k, l.k, l.k + 1, l.c, label_count(l.stride, l.k, l.d)];
    sizes[i]
}

// Bytes with the layout that their header says.
#[derive(Clone, Copy)]
pub struct Image<'a> {
    pub bytes: &'a [u8],
    pub layout: Layout,
    ghost laid: { Laid bytes.now layout },
}

impl<'a> Image<'a> {
    // Section i: from its offset to the next one, the last to the total length.
    pub fn section(&self, i: usize) -> &'a [u8]
        requires { i < 6 }
        ensures { Section self.now.bytes.now self.now.layout i result.now }
    {
        let from = offset(self.layout, i);
        let to = offset(self.layout, i + 1);
        &self.bytes[from..to]
    }

    // The name of each vertex's group.
    pub fn names(&self) -> &'a [u8]
        ensures { Section self.now.bytes.now self.now.layout 0 result.now }
    {
        self.section(0)
    }

    // The names of all groups, rising.
    pub fn groups(&self) -> &'a [u8]
        ensures { Section self.now.bytes.now self.now.layout 1 result.now }
    {
        self.section(1)
    }

    // The level of each group, by place.
    pub fn levels(&self) -> &'a [u8]
        ensures { Section self.now.bytes.now self.now.layout 2 result.now }
    {
        self.section(2)
    }

    // Where each group's children start, by place, and at the end c.
    pub fn starts(&self) -> &'a [u8]
        ensures { Section self.now.bytes.now self.now.layout 3 result.now }
    {
        self.section(3)
    }

    // The children of all groups, one group after the other.
    pub fn children(&self) -> &'a [u8]
        ensures { Section self.now.bytes.now self.now.layout 4 result.now }
    {
        self.section(4)
    }

    // The labels, one labelling after the other.
    pub fn labels(&self) -> &'a [u8]
        ensures { Section self.now.bytes.now self.now.layout 5 result.now }
    {
        self.section(5)
    }
}

// Where s, m and e stand in a triple.
pub const S: usize = 0;

pub const M: usize = 1;

pub const E: usize = 2;

// One group's children, from child start to next child start: the very bytes of the stored form.
pub fn children_of<'a>(starts: &[u8], children: &'a [u8], w: usize, p: usize) -> &'a [u8]
    requires width { Width w }
    requires w_in_bounds { w * (p + 1) + w ≤ length starts.now }
    requires p_bound { num_at w starts.now p ≤ num_at w starts.now (p + 1) }
    requires p_in_bounds { w * num_at w starts.now (p + 1) ≤ length children.now }
    ensures { ChildrenOf starts.now children.now w p result.now }
{
    let start = numbers::num(starts, w, p);
    let next = numbers::num(starts, w, p + 1);
    numbers::numbers_from(children, w, start, next - start)
}
