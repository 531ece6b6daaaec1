// The groups of an index, as the sweep and the climb read them.
ghost use Rattle.std.specs.Prelude.{true, ◌≡◌, ◌<◌, ℕ, get_or};
ghost use Rattle.lineage.specs.Lists.{all_below};
ghost use Rattle.lineage.specs.Sound.{row_passes};
ghost use Rattle.stored.specs.Reading.{numbers_of, rows_of};

use stored::reading::{Numbers, Rows};

// Their names, by place, and their children, each of which is a place.
#[derive(Clone, Copy)]
pub struct Groups<'a> {
    pub names: Numbers<'a>,
    pub rows: Rows<'a>,
    ghost many: { names.len ≡ rows.k },
    ghost passed: { all_below rows.k (row_passes (rows_of rows)) ≡ true },
}

// The groups, and the place at each rank of a labelling.
#[derive(Clone, Copy)]
pub struct Ranks<'a> {
    pub groups: Groups<'a>,
    pub places: Numbers<'a>,
    ghost one_each: { places.len ≡ groups.rows.k },
    ghost place_low: { (r : ℕ) → r < groups.rows.k → get_or (numbers_of places) r 0 < groups.rows.k },
}
