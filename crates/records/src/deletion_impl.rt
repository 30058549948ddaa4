//! Deletions: making and reading them.

ghost use Rattle.std.specs.Prelude.{◌≡◌, ◌&&◌, is_some, if◌then◌else◌, Some, None};
ghost use Rattle.std.specs.Option.{option_map};
ghost use Rattle.records.specs.Content.{deletion, one};
ghost use Rattle.records.specs.Meaning.{tombstone_of, deletion_says, cover_on};
ghost use Rattle.records.specs.Ranges.{stamp_fits, day_fits, deletion_fits};

use crate::deletion::Deletion;
use crate::place::Plot;
use crate::range::{LAST_DAY, LAST_PLOT, LAST_SECTION, LAST_STAMP, within};
use crate::tombstone::Tombstone;

impl Tombstone {
    // Whether its numbers are in range.
    fn fits(self) -> bool
        ensures { result ≡ (stamp_fits self.stamp && day_fits self.day) }
    {
        within(1, self.stamp, LAST_STAMP) && within(1, self.day, LAST_DAY)
    }
}

impl Deletion {
    /// The deletion of these plots and with this tombstone, unless a number is out of its range.
    pub fn new(section: u16, first: u32, last: u32, tombstone: Tombstone) -> Option<Deletion>
        ensures { option_map deletion_says result ≡ (if deletion_fits section first last tombstone.stamp tombstone.day then Some (deletion section first last tombstone) else None) }
    {
        // Tests first, as in `Cell::live`; of one test of all the prover does not find the invariant.
        if !(within(1, section, LAST_SECTION) && within(1, first, LAST_PLOT)) {
            return None;
        }
        if !within(first, last, LAST_PLOT) {
            return None;
        }
        if !tombstone.fits() {
            return None;
        }
        Some(Deletion {
            section,
            first,
            last,
            tombstone,
        })
    }

    pub fn section(&self) -> u16
        ensures { result ≡ self.now.section }
    {
        self.section
    }

    pub fn first(&self) -> u32
        ensures { result ≡ self.now.first }
    {
        self.first
    }

    pub fn last(&self) -> u32
        ensures { result ≡ self.now.last }
    {
        self.last
    }

    /// What it leaves on each of its plots.
    pub fn tombstone(&self) -> Tombstone
        ensures { result ≡ tombstone_of self.now }
    {
        self.tombstone
    }

    /// Whether a plot is one of its plots.
    pub fn has(&self, plot: Plot) -> bool
        ensures { result ≡ is_some (cover_on (one (deletion_says self.now)) plot) }
    {
        plot.section == self.section && (self.first..=self.last).contains(&plot.number)
    }
}
