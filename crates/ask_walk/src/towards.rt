// A walk towards a group.
ghost use Rattle.ask_walk.specs.Fit.{Fit};

use ask_intervals::Judged;
use stored::reading::Labels;

// What the walk towards the group at place t goes by: five sections of an index of k groups and d labellings, and how many marks there are.
#[derive(Clone, Copy)]
pub struct Towards<'a> {
    pub groups: &'a [u8],
    pub levels: &'a [u8],
    pub starts: &'a [u8],
    pub children: &'a [u8],
    pub labels: &'a [u8],
    pub width: usize,
    pub k: usize,
    pub d: usize,
    pub t: usize,
    pub marks: usize,
    ghost fit: { Fit width k d t groups.now levels.now starts.now children.now labels.now marks },
}

impl<'a> Towards<'a> {
    ghost use Rattle.std.specs.Prelude.{◌≡◌, ◌<◌};
    ghost use Rattle.stored.specs.Sections.{labels_in};
    ghost use Rattle.ask_intervals.specs.Intervals.{judged};

    // What the labellings tell of the group at place h. Inlined, as the test that it makes.
    #[inline]
    pub fn judge(&self, h: usize) -> Judged
        requires { h < self.now.k }
        ensures { result ≡ judged h self.now.t (labels_in self.now.width 3 self.now.labels.now self.now.k self.now.d) }
    {
        let labels = Labels {
            bytes: self.labels,
            width: self.width,
            z: 3,
            k: self.k,
            d: self.d,
        };
        ask_intervals::judge(&labels, h, self.t)
    }
}
