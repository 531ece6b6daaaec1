// The stored form, written from work memory: all that stands before the labels, and one labelling.
#![tactic(auto)]

ghost use Rattle.std.specs.Prelude.{◌≡◌, ◌++◌, map, ◌+◌, ◌*◌, ◌≤◌, length};
ghost use Rattle.lineage.specs.Lists.{upto, joined};
ghost use Rattle.lineage.specs.Numbers.{Width, written};
ghost use Rattle.lineage.specs.Stored.{label_of, label_numbers};
ghost use Rattle.numbers.specs.Put.{put};
ghost use Rattle.stored_header.specs.Header.{Stride, header_of};
ghost use Rattle.build_writing.specs.Words.{label_by, labelling_in_words, group_lists, group_sections};
ghost use Rattle.build_writing.specs.Fit.{LabelsFit, LabellingFit, SectionsFit};

use stored_header::Layout;

// A labelling's words: s, m and e of each group by place, and the places by rank.
#[derive(Clone, Copy)]
pub struct LabellingWords<'a> {
    pub s: &'a [u32],
    pub m: &'a [u32],
    pub e: &'a [u32],
    pub by_rank: &'a [u32],
}

// The words of the sections before the labels.
#[derive(Clone, Copy)]
pub struct GroupWords<'a> {
    pub names: &'a [u32],
    pub groups: &'a [u32],
    pub levels: &'a [u32],
    pub starts: &'a [u32],
    pub children: &'a [u32],
}

// Writes s, m and e, or s and e where a group has two numbers, from position at on.
pub fn write_label(out: &mut [u8], at: usize, w: usize, z: usize, s: u32, m: u32, e: u32)
    requires width { Width w }
    requires stride { Stride z }
    requires z_in_bounds { at + w * z ≤ length out.old }
    ensures { out.new ≡ put out.old at (written w (label_by z s m e)) }
{
    let second = at + w;
    numbers::put_at(out, at, w, s as usize);
    if z == 2 {
        numbers::put_at(out, second, w, e as usize);
        return;
    }
    let third = second + w;
    numbers::put_at(out, second, w, m as usize);
    numbers::put_at(out, third, w, e as usize);
}

// Writes the z numbers of each group by place, from position at on.
fn write_labels(out: &mut [u8], at: usize, w: usize, z: usize, words: &LabellingWords)
    requires { LabelsFit out.old at w z (labelling_in_words words.now) }
    ensures { out.new ≡ put out.old at (written w (joined (map (label_of z (labelling_in_words words.now)) (upto (length words.now.s.now))))) }
{
    let step = numbers::bytes_of(w, z);
    let s = words.s;
    let m = words.m;
    let e = words.e;
    for i in 0..s.len() {
        write_label(out, at + step * i, w, z, s[i], m[i], e[i]);
    }
}

// Writes a labelling from position at on: z numbers of each group by place, then the places by rank.
pub fn write_labelling(out: &mut [u8], at: usize, w: usize, z: usize, words: &LabellingWords)
    requires { LabellingFit out.old at w z (labelling_in_words words.now) }
    ensures { out.new ≡ put out.old at (written w (label_numbers z (length words.now.s.now) (labelling_in_words words.now))) }
{
    let places = at + numbers::bytes_of(w, z * words.s.len());
    write_labels(out, at, w, z, words);
    numbers::write_words(out, places, w, words.by_rank);
}

// Writes the header, and the five sections before the labels, each at its offset.
pub fn write_groups(out: &mut [u8], form: usize, l: Layout, words: &GroupWords)
    requires { SectionsFit out.old form l (group_lists words.now) }
    ensures { out.new ≡ put out.old 0 (written 4 (header_of form l) ++ joined (map (written l.width) (group_sections (group_lists words.now)))) }
{
    stored_header::write_header(out, form, l);
    numbers::write_words(out, l.names, l.width, words.names);
    numbers::write_words(out, l.groups, l.width, words.groups);
    numbers::write_words(out, l.levels, l.width, words.levels);
    numbers::write_words(out, l.starts, l.width, words.starts);
    numbers::write_words(out, l.children, l.width, words.children);
}
