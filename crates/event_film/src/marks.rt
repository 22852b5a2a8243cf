//! Marks on the sites of a window.
ghost use Rattle.std.specs.Prelude.{◌≡◌, ◌≤◌, ◌<◌, ◌+◌, ◌*◌, ◌^◌, IsTrue, cond, length};
ghost use Rattle.event_film.specs.Marks.{IsNextSite, marked, marks_in};

use std::marker::Model;

/// A mark for each of the 41 sites of a window. Contracts see the list of them.
#[derive(Drop)]
pub(crate) struct Marks {
    bits: u64,
}

impl Model for Marks {
    ghost use Rattle.std.specs.Prelude.{Bool, List, ◌<◌, ◌^◌};
    ghost use Rattle.event_film.specs.Marks.{marks_in};

    ghost Value = { List Bool };

    ghost view = { λ m. marks_in 41 m.bits };

    ghost invariant = { λ m. m.bits < 2 ^ 41 };
}

impl Marks {
    /// The marks whose bits these are; the lowest bit is the mark of site 0.
    pub(crate) fn from_bits(bits: u64) -> Marks
        requires { bits < 2 ^ 41 }
        ensures { result ≡ marks_in 41 bits }
    {
        Marks { bits }
    }

    /// How many sites are marked.
    pub(crate) fn count(&self) -> usize
        ensures { result ≡ marked self.now }
    {
        self.bits.count_ones() as usize
    }

    /// Whether these are the same marks.
    pub(crate) fn is(&self, other: &Marks) -> bool
        ensures { IsTrue result → self.now ≡ other.now }
    {
        self.bits == other.bits
    }

    /// The marked sites.
    pub(crate) fn sites(&self) -> MarkedSites
        ensures sites { result ≡ record { at = 0; marks = self.now } }
        ensures all { length self.now ≡ 41 }
    {
        MarkedSites {
            at: 0,
            left: self.bits,
        }
    }

    /// The marks by site.
    pub(crate) fn by_site(&self) -> [bool; 41]
        ensures { result ≡ self.now }
    {
        if self.bits == (1 << 41) - 1 {
            [true; 41]
        } else {
            self.each()
        }
    }

    /// The marks by site, one by one.
    fn each(&self) -> [bool; 41]
        ensures { result ≡ self.now }
    {
        let mut sites = [false; 41];
        let mut left = self.bits;
        for n in 0..41 {
            sites[n] = left % 2 == 1;
            left /= 2;
        }
        sites
    }
}

/// The marked sites of a window, from one site on. Contracts see that site, and the marks from it on.
#[derive(Drop)]
pub(crate) struct MarkedSites {
    at: u8,
    left: u64,
}

impl Model for MarkedSites {
    ghost use Rattle.std.specs.Prelude.{◌≤◌, ◌<◌, ◌-◌, ◌^◌};
    ghost use Rattle.event_film.specs.Marks.{SitesFrom, marks_in};

    ghost Value = { SitesFrom };

    ghost view = { λ s. record { at = s.at; marks = marks_in (41 - s.at) s.left } };

    ghost invariant = { λ s. (s.at ≤ 41) × (s.left < 2 ^ (41 - s.at)) };
}

impl MarkedSites {
    /// The next marked site, if there is one.
    pub(crate) fn next(&mut self) -> Option<u8>
        ensures { IsNextSite self.old result self.new }
    {
        if self.left == 0 {
            return None;
        }
        let skip = self.left.trailing_zeros();
        let site = self.at + skip as u8;
        self.at = site + 1;
        self.left = (self.left >> skip) / 2;
        Some(site)
    }
}

/// These bits with one more mark below them.
pub(crate) fn with_mark_below(bits: u64, mark: bool) -> u64
    requires { bits < 2 ^ 63 }
    ensures { result ≡ 2 * bits + cond mark 1 0 }
{
    2 * bits + u64::from(mark)
}
