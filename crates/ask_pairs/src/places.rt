// The place of every vertex's group, laid out in lent words: that of each group at its name, then that of each vertex from its name.
ghost use Rattle.std.specs.Prelude.{◌≡◌, ◌≤◌, length};
ghost use Rattle.ask_pairs.specs.Places.{Listed, Named, AtNames, FromNames, Placed};

// Sets the word at each group's name to its place.
fn place_groups(groups: &[u8], w: usize, k: usize, places: &mut [u32])
    requires { Listed w (length places.old) k groups.now }
    ensures { AtNames w k groups.now places.new }
{
    for p in 0..k {
        let name = numbers::num(groups, w, p);
        places[name] = p as u32;
    }
}

// Sets each vertex's word to the one at its name. A name is its own name, so what stands there stays.
fn place_vertices(names: &[u8], w: usize, n: usize, places: &mut [u32])
    requires { Named w n names.now × (n ≤ length places.old) }
    ensures { FromNames w n names.now places.old places.new }
{
    for v in 0..n {
        let name = numbers::num(names, w, v);
        places[v] = places[name];
    }
}

// Sets the word of each of n vertices to the place of its group.
pub fn lay_out(names: &[u8], groups: &[u8], w: usize, n: usize, k: usize, places: &mut [u32])
    requires { Listed w n k groups.now × (Named w n names.now × (length places.old ≡ n)) }
    ensures { Placed w n k names.now groups.now places.new }
{
    place_groups(groups, w, k, places);
    place_vertices(names, w, n, places)
}
