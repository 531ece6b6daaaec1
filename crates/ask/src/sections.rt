// The sections that a question is lent.
ghost use Rattle.sound_places.specs.Lent.{InTriples};

use ask_walk::towards::Towards;
use sound_places::SoundImage;
use stored_header::Layout;

// The six sections of a sound index whose groups have three numbers by place.
#[derive(Clone, Copy)]
pub struct Sections<'a> {
    pub names: &'a [u8],
    pub groups: &'a [u8],
    pub levels: &'a [u8],
    pub starts: &'a [u8],
    pub children: &'a [u8],
    pub labels: &'a [u8],
    pub layout: Layout,
    ghost in_triples: { InTriples layout names.now groups.now levels.now starts.now children.now labels.now },
}

impl<'a> Sections<'a> {
    ghost use Rattle.std.specs.Prelude.{◌≡◌, ◌<◌};
    ghost use Rattle.lineage.specs.Calls.{index_in};
    ghost use Rattle.ask.specs.Sections.{index_of_sections, WalkTo};

    // Those of stored bytes.
    pub fn of(index: &SoundImage<'a>) -> Sections<'a>
        requires { index.now.image.layout.stride ≡ 3 }
        ensures { (index_of_sections result ≡ index_in index.now.image.bytes.now) × (result.layout ≡ index.now.image.layout) }
    {
        Sections {
            names: index.image.names(),
            groups: index.image.groups(),
            levels: index.image.levels(),
            starts: index.image.starts(),
            children: index.image.children(),
            labels: index.image.labels(),
            layout: index.image.layout,
        }
    }

    // What the walk towards the group at place t goes by, with one mark for each vertex.
    pub fn towards(&self, t: usize) -> Towards<'a>
        requires { t < self.now.layout.k }
        ensures { WalkTo self.now t result }
    {
        let l = self.layout;
        Towards {
            groups: self.groups,
            levels: self.levels,
            starts: self.starts,
            children: self.children,
            labels: self.labels,
            width: l.width,
            k: l.k,
            d: l.d,
            t,
            marks: l.n,
        }
    }
}
