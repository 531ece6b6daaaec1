// The levels of the groups, from their places by rank.
#![tactic(auto)]

ghost use Rattle.std.specs.Prelude.{◌≡◌, map, ℕ, suc, ◌+◌, ◌^◌, ◌<◌, length, get_or};
ghost use Rattle.lineage.specs.Lists.{greatest, part};
ghost use Rattle.lineage.specs.Graph.{levels_of};
ghost use Rattle.laws.specs.Laid.{Below};
ghost use Rattle.numbers.specs.Regions.{Kept};
ghost use Rattle.build_levels.specs.Children.{children_in_words};
ghost use Rattle.build_levels.specs.Fit.{UpFit};

use build_rows::WorkRows;

// The greatest of one more than the levels of a row's places, 0 where there are none.
fn row_level(row: &[u32], levels: &[u32]) -> u32
    requires below { Below (length levels.now) row.now }
    requires by_index { (i : ℕ) → i < length row.now → get_or levels.now (get_or row.now i 0) 0 + 1 < 2 ^ 32 }
    ensures { result ≡ greatest (map (λ q. suc (get_or levels.now q 0)) row.now) }
{
    let mut level: u32 = 0;
    for place in row {
        level = level.max(levels[*place as usize] + 1);
    }
    level
}

// The level of each place, upwards through the ranks: by then the levels of its children are known.
pub fn levels(work: &mut [u32], out: usize, rows: WorkRows, base: usize)
    requires { UpFit work.old out rows.k rows.starts rows.values rows.c base }
    ensures kept { Kept work.old work.new base rows.k }
    ensures k_after { part work.new base rows.k ≡ levels_of (children_in_words work.old rows.starts rows.values rows.c rows.k) }
{
    for r in 0..rows.k {
        let p = work[out + r] as usize;
        let next = p + 1;
        let from = work[rows.starts + p] as usize;
        let end = work[rows.starts + next] as usize;
        let row = &work[rows.values + from..rows.values + end];
        work[base + p] = row_level(row, &work[base..base + rows.k]);
    }
}
