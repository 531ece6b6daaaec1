// The tests of labellings: with those of the groups they decide whether contents are sound. Each labelling is tested by its ranks, its intervals and its roots, while
// marks tell who is somebody's child; and a plain hierarchy by who has two parents.
#![tactic(auto)]

ghost use Rattle.std.specs.Prelude.{not, ◌&&◌, ◌||◌, ◌≡◌, ◌≤◌, ◌<◌, eqb, length};
ghost use Rattle.lineage.specs.Lists.{all_of, cleared};
ghost use Rattle.lineage.specs.Sound.{is_tree, labels_pass};
ghost use Rattle.stored.specs.Sections.{labels_in};
ghost use Rattle.stored.specs.Reading.{rows_of};
ghost use Rattle.sound_ranks.specs.Reading.{labelling_read};
ghost use Rattle.sound_blocks.specs.Marks.{Tells};
ghost use Rattle.sound_labels.specs.Tests.{labelling_number, labelling_passes};

use numbers::clear_marks;
use sound_blocks::{RankedLabelling, intervals_pass, roots_pass};
use sound_parents::parents_pass;
use sound_ranks::ranks_pass;
use sound_ranks::reading::{OneLabelling, PlacedRows};
use stored::reading::{Labels, Numbers};

// Whether one labelling is by the rules over the children, marks telling who is nobody's child.
fn labels_pass<const Z: usize>(rows: &PlacedRows, labelling: &OneLabelling<Z>, marks: &[u8]) -> bool
    requires k_same { rows.now.rows.k ≡ labelling.now.k }
    requires tells { Tells (rows_of rows.now.rows) marks.now rows.now.rows.k }
    ensures { result ≡ labels_pass (rows_of rows.now.rows) (labelling_read Z labelling.now) }
{
    if !ranks_pass(labelling) {
        return false;
    }
    let ranked = RankedLabelling {
        labelling: *labelling,
    };
    if !intervals_pass(rows, &ranked) {
        return false;
    }
    roots_pass(&ranked, marks)
}

// Labelling j, in triples or in pairs as Z says.
fn labelling<'a, const Z: usize>(labels: &Labels<'a>, j: usize) -> OneLabelling<'a, Z>
    requires z_same { labels.now.z ≡ Z }
    requires j_lt_d { j < labels.now.d }
    ensures k_same { result.k ≡ labels.now.k }
    ensures labelling_same { labelling_read Z result ≡ labelling_number labels.now.width labels.now.z labels.now.bytes.now labels.now.k j }
{
    OneLabelling {
        tuples: labels.tuples(j),
        places: labels.by_rank(j),
        width: labels.width,
        k: labels.k,
    }
}

// Whether labelling j is by the rules over the children.
fn labelling_passes(rows: &PlacedRows, labels: &Labels, marks: &[u8], j: usize) -> bool
    requires k_same { rows.now.rows.k ≡ labels.now.k }
    requires tells { Tells (rows_of rows.now.rows) marks.now rows.now.rows.k }
    requires j_lt_d { j < labels.now.d }
    ensures { result ≡ labelling_passes labels.now.width labels.now.z (rows_of rows.now.rows) labels.now.bytes.now labels.now.k j }
{
    if labels.z == 3 {
        let triples = labelling::<3>(labels, j);
        return labels_pass(rows, &triples, marks);
    }
    let pairs = labelling::<2>(labels, j);
    labels_pass(rows, &pairs, marks)
}

// Whether each labelling is by the rules over the children.
fn labellings_pass(rows: &PlacedRows, labels: &Labels, marks: &[u8]) -> bool
    requires k_same { rows.now.rows.k ≡ labels.now.k }
    requires tells { Tells (rows_of rows.now.rows) marks.now rows.now.rows.k }
    ensures { result ≡ all_of (labels_pass (rows_of rows.now.rows)) (labels_in labels.now.width labels.now.z labels.now.bytes.now labels.now.k labels.now.d) }
{
    for j in 0..labels.d {
        if !labelling_passes(rows, labels, marks, j) {
            return false;
        }
    }
    true
}

// The same, whatever the marks hold; and where labels are in pairs, whether no group is a child of two others. Meanwhile the marks tell who is somebody's child, and those
// below n are 0 afterwards.
pub fn labels_sound(rows: &PlacedRows, labels: &Labels, marks: &mut [u8], n: usize) -> bool
    requires k_same { rows.now.rows.k ≡ labels.now.k }
    requires k_le_n { (rows.now.rows.k ≤ n) × (n ≤ length marks.old) }
    ensures value { result ≡ (all_of (labels_pass (rows_of rows.now.rows)) (labels_in labels.now.width labels.now.z labels.now.bytes.now labels.now.k labels.now.d)
        && (not (eqb labels.now.z 2) || is_tree (rows_of rows.now.rows))) }
    ensures marks_after { marks.new ≡ cleared n marks.old }
{
    let children = Numbers {
        bytes: rows.rows.children,
        width: rows.rows.width,
        len: rows.rows.c,
    };
    let single = parents_pass(&children, marks, labels.z, n, rows.rows.k);
    let passed = labellings_pass(rows, labels, marks);
    clear_marks(marks, n);
    passed & single
}
