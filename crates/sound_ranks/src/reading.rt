// What the tests of one labelling read: rows of children that have passed their own test, the numbers by place alone, and with them the places by rank.
ghost use Rattle.std.specs.Prelude.{◌≡◌, ◌+◌, ◌-◌, ◌*◌, ◌^◌, ◌<◌, get_or};
ghost use Rattle.lineage.specs.Numbers.{num_at};
ghost use Rattle.stored.specs.Rows.{Places};
ghost use Rattle.sound_ranks.specs.Fit.{Tuples, LabellingHeld};

use numbers::num;
use stored::reading;
use stored::reading::Rows;

// Rows of children that are places, strictly rising in each row.
#[derive(Clone, Copy)]
pub struct PlacedRows<'a> {
    pub rows: Rows<'a>,
    ghost placed: { Places rows.width rows.starts.now rows.children.now rows.k rows.c },
}

// The numbers by place of one labelling of k groups: z of each, triples s, m, e or pairs s, e.
#[derive(Clone, Copy)]
pub struct TuplesByPlace<'a> {
    pub bytes: &'a [u8],
    pub width: usize,
    pub z: usize,
    pub k: usize,
    ghost held: { Tuples width z bytes.now k },
}

impl<'a> TuplesByPlace<'a> {
    ghost use Rattle.numbers.specs.Regions.{Part};

    // Those of labelling j, out of all labels.
    pub fn of(labels: &reading::Labels<'a>, j: usize) -> TuplesByPlace<'a>
        requires { j < labels.now.d }
        ensures bytes { Part labels.now.bytes.now (labels.now.width * (j * ((labels.now.z + 1) * labels.now.k))) (labels.now.width * (labels.now.z * labels.now.k)) result.bytes.now }
        ensures same { (result.width ≡ labels.now.width) × ((result.z ≡ labels.now.z) × (result.k ≡ labels.now.k)) }
    {
        TuplesByPlace {
            bytes: labels.tuples(j),
            width: labels.width,
            z: labels.z,
            k: labels.k,
        }
    }

    // s of group p, the first of its z numbers.
    pub fn s(&self, p: usize) -> usize
        requires { p < self.now.k }
        ensures { (result ≡ num_at self.now.width self.now.bytes.now (self.now.z * p)) × (result < 2 ^ 32) }
    {
        num(self.bytes, self.width, self.z * p)
    }

    // Its m, the last but one: in a pair that is s.
    pub fn m(&self, p: usize) -> usize
        requires { p < self.now.k }
        ensures { (result ≡ num_at self.now.width self.now.bytes.now (self.now.z * p + (self.now.z - 2))) × (result < 2 ^ 32) }
    {
        num(self.bytes, self.width, self.z * p + (self.z - 2))
    }

    // Its e, the last.
    pub fn e(&self, p: usize) -> usize
        requires { p < self.now.k }
        ensures { (result ≡ num_at self.now.width self.now.bytes.now (self.now.z * p + (self.now.z - 1))) × (result < 2 ^ 32) }
    {
        num(self.bytes, self.width, self.z * p + (self.z - 1))
    }
}

// One labelling of k groups: Z numbers of each by place, and the places by rank. Z is part of the type, so the machine multiplies by a number that it knows.
#[derive(Clone, Copy)]
pub struct OneLabelling<'a, const Z: usize> {
    pub tuples: &'a [u8],
    pub places: &'a [u8],
    pub width: usize,
    pub k: usize,
    ghost held: { LabellingHeld width Z tuples.now places.now k },
}

impl<'a, const Z: usize> OneLabelling<'a, Z> {
    ghost use Rattle.sound_ranks.specs.Tests.{tuples_alone};
    ghost use Rattle.sound_ranks.specs.Reading.{tuples_read, labelling_read};

    // Its numbers by place.
    pub fn by_place(&self) -> TuplesByPlace<'a>
        ensures { (tuples_read result ≡ tuples_alone self.now.width Z self.now.tuples.now self.now.k) × (result.k ≡ self.now.k) }
    {
        TuplesByPlace {
            bytes: self.tuples,
            width: self.width,
            z: Z,
            k: self.k,
        }
    }

    // m of group p.
    pub fn m(&self, p: usize) -> usize
        requires { p < self.now.k }
        ensures { (result ≡ get_or (labelling_read Z self.now).m p 0) × (result < 2 ^ 32) }
    {
        self.by_place().m(p)
    }

    // e of group p.
    pub fn e(&self, p: usize) -> usize
        requires { p < self.now.k }
        ensures { (result ≡ get_or (labelling_read Z self.now).e p 0) × (result < 2 ^ 32) }
    {
        self.by_place().e(p)
    }

    // The place at rank r, from 0.
    pub fn place(&self, r: usize) -> usize
        requires { r < self.now.k }
        ensures { (result ≡ get_or (labelling_read Z self.now).by_rank r 0) × (result < 2 ^ 32) }
    {
        num(self.places, self.width, r)
    }
}
