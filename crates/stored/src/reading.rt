// Numbers held in lent bytes, and the rows of the children: what a section of a stored index is to the code that reads it.
ghost use Rattle.std.specs.Prelude.{[], ◌≡◌, ◌^◌, ◌<◌, length, get_or};
ghost use Rattle.stored.specs.Rows.{Holds, Children};
ghost use Rattle.stored.specs.Sections.{Labellings};

use stored_header::label_count;

// So many numbers of one width, one after the other.
#[derive(Clone, Copy)]
pub struct Numbers<'a> {
    pub bytes: &'a [u8],
    pub width: usize,
    pub len: usize,
    ghost held: { Holds width bytes.now len },
}

impl<'a> Numbers<'a> {
    ghost use Rattle.stored.specs.Reading.{numbers_of};

    // Number i.
    pub fn get(&self, i: usize) -> usize
        requires { i < self.now.len }
        ensures { (result ≡ get_or (numbers_of self.now) i 0) × (result < 2 ^ 32) }
    {
        numbers::num(self.bytes, self.width, i)
    }
}

// The children of k groups, c entries in all: row p is those of the group at place p.
#[derive(Clone, Copy)]
pub struct Rows<'a> {
    pub starts: &'a [u8],
    pub children: &'a [u8],
    pub width: usize,
    pub k: usize,
    pub c: usize,
    ghost held: { Children width starts.now children.now k c },
}

impl<'a> Rows<'a> {
    ghost use Rattle.stored.specs.Reading.{numbers_of, rows_of};

    // The children of the group at place p.
    pub fn row(&self, p: usize) -> Numbers<'a>
        requires { p < self.now.k }
        ensures { (numbers_of result ≡ get_or (rows_of self.now) p []) × ((result.len ≡ length (get_or (rows_of self.now) p [])) × (result.width ≡ self.now.width)) }
    {
        let from = numbers::num(self.starts, self.width, p);
        let to = numbers::num(self.starts, self.width, p + 1);
        let bytes = numbers::numbers_from(self.children, self.width, from, to - from);
        Numbers {
            bytes,
            width: self.width,
            len: to - from,
        }
    }
}

// The labels of d labellings of k groups: of each, z numbers of every group by place, triples s, m, e or pairs s, e, and then the places by rank.
#[derive(Clone, Copy)]
pub struct Labels<'a> {
    pub bytes: &'a [u8],
    pub width: usize,
    pub z: usize,
    pub k: usize,
    pub d: usize,
    ghost held: { Labellings width z bytes.now k d },
}

impl<'a> Labels<'a> {
    ghost use Rattle.std.specs.Prelude.{◌+◌, ◌*◌, ◌<◌};
    ghost use Rattle.numbers.specs.Regions.{Part};

    // The numbers by place of labelling j.
    pub fn tuples(&self, j: usize) -> &'a [u8]
        requires { j < self.now.d }
        ensures { Part self.now.bytes.now (self.now.width * (j * ((self.now.z + 1) * self.now.k))) (self.now.width * (self.now.z * self.now.k)) result.now }
    {
        let from = label_count(self.z, self.k, j);
        numbers::numbers_from(self.bytes, self.width, from, self.z * self.k)
    }

    // The k places by rank of labelling j.
    pub fn by_rank(&self, j: usize) -> &'a [u8]
        requires { j < self.now.d }
        ensures { Part self.now.bytes.now (self.now.width * (j * ((self.now.z + 1) * self.now.k) + self.now.z * self.now.k)) (self.now.width * self.now.k) result.now }
    {
        let tuples = label_count(self.z, self.k, j);
        numbers::numbers_from(self.bytes, self.width, tuples + self.z * self.k, self.k)
    }
}
