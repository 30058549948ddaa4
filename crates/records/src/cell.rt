ghost use Rattle.std.specs.Prelude.{◌≡◌, ◌≤◌};
ghost use Rattle.records.specs.States.{rank_of, day_of};

use crate::place::Place;
use crate::state::State;

/// A cell: what stands at a place since a stamp.
#[derive(Clone, Copy, PartialEq, Eq)]
pub struct Cell {
    pub(crate) place: Place,
    pub(crate) stamp: u64,
    pub(crate) state: State,
    ghost section_low: { 1 ≤ place.plot.section },
    ghost section_high: { place.plot.section ≤ 9999 },
    ghost plot_low: { 1 ≤ place.plot.number },
    ghost plot_high: { place.plot.number ≤ 999999 },
    ghost field_low: { 1 ≤ place.field },
    ghost field_high: { place.field ≤ 32 },
    ghost stamp_low: { 1 ≤ stamp },
    ghost stamp_high: { stamp ≤ 9223372036854775807 },
    ghost day_low: { rank_of state ≤ day_of state },
    ghost day_high: { day_of state ≤ 99999 },
}

impl Cell {
    pub fn place(&self) -> Place
        ensures { result ≡ self.now.place }
    {
        self.place
    }
}
