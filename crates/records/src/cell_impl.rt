//! Cells: making and reading them.

ghost use Rattle.std.specs.Prelude.{◌≡◌, ◌&&◌, if◌then◌else◌, Some, None};
ghost use Rattle.std.specs.Option.{option_map};
ghost use Rattle.records.specs.States.{bytes_of};
ghost use Rattle.records.specs.Content.{live, cleared as cleared_at, is_live};
ghost use Rattle.records.specs.Meaning.{cell_says, entry_at, place_in_range, version_of};
ghost use Rattle.records.specs.Ranges.{stamp_fits, day_fits};

use crate::cell::Cell;
use crate::place::Place;
use crate::range::{LAST_DAY, LAST_FIELD, LAST_PLOT, LAST_SECTION, LAST_STAMP, within};
use crate::state::State;
use crate::value::Value;

impl Place {
    // Whether its numbers are in range.
    fn fits(self) -> bool
        ensures { result ≡ place_in_range self }
    {
        within(1, self.plot.section, LAST_SECTION)
            && within(1, self.plot.number, LAST_PLOT)
            && within(1, self.field, LAST_FIELD)
    }
}

impl Cell {
    /// A cell that holds a value, unless a number is out of its range.
    pub fn live(place: Place, stamp: u64, value: Value) -> Option<Cell>
        ensures { option_map cell_says result ≡ (if place_in_range place && stamp_fits stamp then Some (entry_at place (live stamp (bytes_of value))) else None) }
    {
        // A cell out of range cannot be made, so the tests come first: a `then` would only put it into a closure.
        if !place.fits() {
            return None;
        }
        if !within(1, stamp, LAST_STAMP) {
            return None;
        }
        let state = State::Live(value);
        Some(Cell {
            place,
            stamp,
            state,
        })
    }

    /// A cell that was cleared, unless a number is out of its range.
    // Its stamp is the cell's and its day the state's: the two are no `Tombstone`, which is a deletion's.
    pub fn cleared(place: Place, stamp: u64, day: u32) -> Option<Cell>
        ensures { option_map cell_says result ≡ (if place_in_range place && (stamp_fits stamp && day_fits day) then Some (entry_at place (cleared_at stamp day)) else None) }
    {
        // Tests first, as in `live`; a maker of both from a state would be no plainer, since only this one has a day to test.
        if !place.fits() {
            return None;
        }
        if !(within(1, stamp, LAST_STAMP) && within(1, day, LAST_DAY)) {
            return None;
        }
        let state = State::Cleared(day);
        Some(Cell {
            place,
            stamp,
            state,
        })
    }

    pub fn section(&self) -> u16
        ensures { result ≡ self.now.place.plot.section }
    {
        self.place.plot.section
    }

    pub fn plot(&self) -> u32
        ensures { result ≡ self.now.place.plot.number }
    {
        self.place.plot.number
    }

    pub fn field(&self) -> u8
        ensures { result ≡ self.now.place.field }
    {
        self.place.field
    }

    pub fn stamp(&self) -> u64
        ensures { result ≡ self.now.stamp }
    {
        self.stamp
    }

    pub fn state(&self) -> State
        ensures { result ≡ self.now.state }
    {
        self.state
    }

    /// Whether it holds a value.
    pub fn is_live(&self) -> bool
        ensures { result ≡ is_live (Some (version_of self.now)) }
    {
        matches!(self.state, State::Live(_))
    }
}
