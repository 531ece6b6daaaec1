// Rows stripped: each row without its own number and without repeats.
#![tactic(auto)]

ghost use Rattle.std.specs.Prelude.{◌≡◌, [], ◌∷◌, ◌++◌, ℕ, ◌+◌, ◌-◌, ◌≤◌, ◌<◌, get_or};
ghost use Rattle.lineage.specs.Lists.{part};
ghost use Rattle.numbers.specs.Regions.{Kept};
ghost use Rattle.build_rows.specs.Rows.{RowsAt, rows_in, new_ones, stripped_row};
ghost use Rattle.build_stripping.specs.Fit.{StripFit, EntriesFit};

use build_rows::WorkRows;

// Copies the entries of row p behind the first at words at out, without p and without repeats, and returns how many words that makes. An entry is copied where
// its stamp is not the row's mark, p + 1, and is stamped then.
fn strip_row(
    work: &mut [u32],
    rows: WorkRows,
    from: usize,
    to: usize,
    p: u32,
    out: usize,
    at: usize,
) -> usize
    requires { EntriesFit work.old rows.values rows.c from to p rows.k out at }
    ensures kept { Kept work.old work.new (out + at) (rows.c - at + rows.k) }
    ensures upper_bound { result ≤ at + (to - from) }
    ensures result_after { part work.new out result
        ≡ part work.old out at ++ new_ones (p ∷ []) (part (part work.old rows.values rows.c) from (to - from)) }
    ensures by_index { (x : ℕ) → x < rows.k → get_or (part work.new (out + rows.c) rows.k) x 0 ≤ p + 1 }
{
    let mark = p + 1;
    let stamps = out + rows.c;
    let mut n = at;
    for e in from..to {
        let x = work[rows.values + e];
        let i = x as usize;
        if work[stamps + i] != mark {
            work[stamps + i] = mark;
            work[out + n] = x;
            n += 1;
        }
    }
    n
}

// Lays out k rows at base, each without repeats and without its own number, and returns how many of the c values are left. Behind the room for c values lie the
// stamps.
pub fn strip(work: &mut [u32], rows: WorkRows, base: usize) -> usize
    requires { StripFit work.old rows.starts rows.values rows.c rows.k base }
    ensures kept { Kept work.old work.new base (rows.k + 1 + rows.c + rows.k) }
    ensures upper_bound { result ≤ rows.c }
    ensures rows_at { RowsAt work.new base rows.k result (stripped_row (rows_in work.old rows.starts rows.values rows.c rows.k)) }
{
    let out = base + rows.k + 1;
    let stamps = out + rows.c;
    let mut n = 0;
    for p in 0..rows.k {
        let from = work[rows.starts + p] as usize;
        let to = work[rows.starts + p + 1] as usize;
        work[base + p] = n as u32;
        work[stamps + p] = (p + 1) as u32;
        n = strip_row(work, rows, from, to, p as u32, out, n);
    }
    work[base + rows.k] = n as u32;
    n
}
