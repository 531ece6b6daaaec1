// The rule desk's states, in stored bytes whose contents are sound: the vertices that the changed ones reach are marked, and each state follows the mark of its vertex.
#![tactic(auto)]

ghost use Rattle.std.specs.Prelude.{◌≡◌, ◌≤◌, leb, length, position};
ghost use Rattle.lineage.specs.Lists.{cleared};
ghost use Rattle.lineage.specs.Calls.{index_in};
ghost use Rattle.stored.specs.Reading.{numbers_of};
ghost use Rattle.rules_states.specs.Rules.{each_state};
ghost use Rattle.rules_states.specs.Marks.{InRange, Named, mark_each, vertex_marks, affected_marks, state_by};

use sound_places::SoundImage;
use stored::reading::Numbers;

// A rule's states; any other number is kept like a state that nothing touches.
pub const FRESH: u32 = 0;

pub const SUSPECT: u32 = 1;

pub const UNKNOWN: u32 = 2;

// The position of the first changed vertex that is n or more.
pub fn first_out(changed: &[u32], n: usize) -> Option<usize>
    ensures { result ≡ position (leb n) changed.now }
{
    changed.iter().position(|v| n <= *v as usize)
}

// Marks the group of each changed vertex, whatever else is marked.
fn mark_changed(index: &SoundImage, marks: &mut [u8], changed: &[u32])
    requires { (index.now.image.layout.n ≤ length marks.old) × InRange index.now.image.layout.n changed.now }
    ensures { marks.new ≡ mark_each (index_in index.now.image.bytes.now) changed.now marks.old }
{
    for v in changed {
        reach::mark_group(index, marks, *v as usize);
    }
}

// Marks each vertex where its group is marked. A group's mark stands at its name, which is its smallest vertex, and is still there when a later vertex looks.
fn mark_vertices(names: &Numbers, marks: &mut [u8])
    requires { Named (numbers_of names.now) (length marks.old) }
    ensures { marks.new ≡ vertex_marks (numbers_of names.now) marks.old }
{
    for v in 0..names.len {
        let name = names.get(v);
        marks[v] = (marks[name] == 1) as u8;
    }
}

// Marks all vertices that the changed vertices reach, by one sweep from all of them, on marks that are 0 below n.
pub fn mark_affected(index: &SoundImage, marks: &mut [u8], changed: &[u32])
    requires n_in_bounds { (index.now.image.layout.n ≤ length marks.old) × InRange index.now.image.layout.n changed.now }
    requires marks_value { marks.old ≡ cleared index.now.image.layout.n marks.old }
    ensures { marks.new ≡ affected_marks (index_in index.now.image.bytes.now) changed.now marks.old }
{
    let l = index.image.layout;
    mark_changed(index, marks, changed);
    reach::sweep_down(index, marks, l.k);
    let names = Numbers {
        bytes: index.image.names(),
        width: l.width,
        len: l.n,
    };
    mark_vertices(&names, marks);
}

// A record's state afterwards, by its vertex: unknown where that is n or more, suspect where it is marked, and otherwise what it was.
pub fn state_after(marks: &[u8], n: usize, vertex: u32, state: u32) -> u32
    requires { n ≤ length marks.now }
    ensures { result ≡ state_by marks.now n vertex state }
{
    let v = vertex as usize;
    if n <= v {
        return UNKNOWN;
    }
    if marks[v] == 1 {
        return SUSPECT;
    }
    state
}

// The states of a table, each by the vertex of its record, as far as both lists go.
pub fn settle_states(marks: &[u8], n: usize, vertices: &[u32], states: &mut [u32])
    requires { n ≤ length marks.now }
    ensures { states.new ≡ each_state (state_by marks.now n) vertices.now states.old }
{
    for i in 0..vertices.len().min(states.len()) {
        states[i] = state_after(marks, n, vertices[i], states[i]);
    }
}
