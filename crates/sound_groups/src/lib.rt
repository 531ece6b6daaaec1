// The tests of names, group list, child starts, children and levels: with those of the labels they decide whether contents are sound. Each goes once over the
// vertices, the groups or the child entries.
#![tactic(auto)]

ghost use Rattle.std.specs.Prelude.{◌&&◌, ◌≡◌, ◌+◌, ◌<◌};
ghost use Rattle.lineage.specs.Lists.{all_below};
ghost use Rattle.lineage.specs.Sound.{names_pass, starts_pass, groups_pass};
ghost use Rattle.stored.specs.Sections.{children_in};
ghost use Rattle.stored.specs.Reading.{numbers_of, rows_of};
ghost use Rattle.sound_groups.specs.Tests.{own_name, row_and_level};

use stored::reading::{Numbers, Rows};

// Whether the name of v is not above v and is its own name.
fn own_name(names: &Numbers, v: usize) -> bool
    requires { v < names.now.len }
    ensures { result ≡ own_name (numbers_of names.now) v }
{
    let name = names.get(v);
    if v < name {
        return false;
    }
    names.get(name) == name
}

// Whether every name is not above its vertex and is its own name, and the group list is all names, rising.
fn names_pass(names: &Numbers, groups: &Numbers) -> bool
    ensures { result ≡ names_pass (numbers_of names.now) (numbers_of groups.now) }
{
    let mut p = 0;
    for v in 0..names.len {
        if !own_name(names, v) {
            return false;
        }
        if names.get(v) == v {
            if p == groups.len {
                return false;
            }
            if groups.get(p) != v {
                return false;
            }
            p += 1;
        }
    }
    p == groups.len
}

// Whether the child starts of k groups are first 0, never falling, last c.
fn starts_pass(starts: &Numbers, k: usize, c: usize) -> bool
    requires { starts.now.len ≡ k + 1 }
    ensures { result ≡ starts_pass (numbers_of starts.now) k c }
{
    if starts.get(0) != 0 {
        return false;
    }
    for p in 0..k {
        if starts.get(p + 1) < starts.get(p) {
            return false;
        }
    }
    starts.get(k) == c
}

// Whether the children of group p are places, strictly rising, and its level is what they give.
fn row_passes(rows: &Rows, levels: &Numbers, p: usize) -> bool
    requires levels_as_rows { levels.now.len ≡ rows.now.k }
    requires p_lt_k { p < rows.now.k }
    ensures { result ≡ row_and_level (rows_of rows.now) (numbers_of levels.now) p }
{
    let row = rows.row(p);
    let mut next = 0;
    let mut level = 0;
    for i in 0..row.len {
        let q = row.get(i);
        if rows.k <= q {
            return false;
        }
        if q < next {
            return false;
        }
        next = q + 1;
        level = level.max(levels.get(q) + 1);
    }
    levels.get(p) == level
}

// Whether the children of every group are places, strictly rising, and the level of every group is what they give.
fn rows_pass(rows: &Rows, levels: &Numbers) -> bool
    requires levels_as_rows { levels.now.len ≡ rows.now.k }
    ensures { result ≡ all_below rows.now.k (row_and_level (rows_of rows.now) (numbers_of levels.now)) }
{
    for p in 0..rows.k {
        if !row_passes(rows, levels, p) {
            return false;
        }
    }
    true
}

// Whether names, group list, child starts, children and levels agree.
pub fn groups_pass(
    names: &Numbers,
    groups: &Numbers,
    levels: &Numbers,
    starts: &Numbers,
    children: &Numbers,
) -> bool
    requires levels_many { levels.now.len ≡ groups.now.len }
    requires starts_many { starts.now.len ≡ groups.now.len + 1 }
    requires width_same { starts.now.width ≡ children.now.width }
    ensures { result ≡ (starts_pass (numbers_of starts.now) groups.now.len children.now.len
        && groups_pass (numbers_of names.now) (numbers_of groups.now) (numbers_of levels.now)
        (children_in children.now.width starts.now.bytes.now children.now.bytes.now groups.now.len children.now.len)) }
{
    if !starts_pass(starts, groups.len, children.len) {
        return false;
    }
    if !names_pass(names, groups) {
        return false;
    }
    let rows = Rows {
        starts: starts.bytes,
        children: children.bytes,
        width: children.width,
        k: groups.len,
        c: children.len,
    };
    rows_pass(&rows, levels)
}
