//! Looking things up in a run, in place, by binary search.

ghost use Rattle.std.specs.Prelude.{◌≡◌, ℕ, ◌≤◌, [], ◌∷◌, None, MatchOption};
ghost use Rattle.records.specs.Content.{one};
ghost use Rattle.records.specs.Meaning.{says, deletion_says, cell_says, cover_on};
ghost use Rattle.runs.specs.Keys.{numbers_of};
ghost use Rattle.runs.specs.Opened.{bytes_in, content_of_run};
ghost use Rattle.runs.specs.Lookups.{FirstFrom, DeletionOver, NextCell, CellAt};

use crate::key::{Class, Key};
use crate::run::Run;
use records::{Cell, Deletion, Place, Plot, Record};

// The deletion that a record is, if it is one over the plot.
fn deletion_by(record: &Record, plot: Plot) -> Option<Deletion>
    ensures { MatchOption result (cover_on (one (says «record».now)) plot ≡ None) (λ d. (says «record».now ≡ deletion_says d) × (d.section ≡ plot.section) × (d.first ≤ plot.number) × (plot.number ≤ d.last)) }
{
    match record {
        Record::Deletion(d) if d.has(plot) => Some(*d),
        _ => None,
    }
}

// The cell that a record is, if it is one of the section.
fn cell_by(record: &Record, section: u16) -> Option<Cell>
    ensures { MatchOption result ((p f : ℕ) → (one (says «record».now)).cell section p f ≡ None) (λ x. (says «record».now ≡ cell_says x) × (x.place.plot.section ≡ section)) }
{
    match record {
        Record::Cell(c) if c.section() == section => Some(*c),
        _ => None,
    }
}

impl Run<'_> {
    // The index of its first record with this key or a greater one.
    fn find(&self, key: Key) -> usize
        ensures { FirstFrom (numbers_of key) (bytes_in self.now) result }
    {
        self.pieces().partition_point(|b| Key::read(b) < key)
    }

    // The deletion over a plot, where its first n records come no later than one that begins at the plot.
    fn deletion_among(&self, n: usize, plot: Plot) -> Option<Deletion>
        requires { FirstFrom (plot.section ∷ 0 ∷ plot.number ∷ 1 ∷ []) (bytes_in self.now) n }
        ensures { DeletionOver (content_of_run self.now) plot result }
    {
        deletion_by(&self.at(n.checked_sub(1)?), plot)
    }

    // The first cell at a place or after it, where its n-th record is the first with the place's key or a greater one.
    fn cell_among(&self, n: usize, place: Place) -> Option<Cell>
        requires { FirstFrom (place.plot.section ∷ 1 ∷ place.plot.number ∷ place.field ∷ []) (bytes_in self.now) n }
        ensures { NextCell (content_of_run self.now) place result }
    {
        cell_by(&self.record(n)?.record(), place.plot.section)
    }

    /// The deletion over a plot. Its first and last plot are the ends of its stretch.
    pub fn deletion_over(&self, plot: Plot) -> Option<Deletion>
        ensures { DeletionOver (content_of_run self.now) plot result }
    {
        // Behind the deletions that begin at the plot: theirs have field 0.
        let behind = Key {
            section: plot.section,
            class: Class::Deletion,
            first: plot.number,
            field: 1,
        };
        self.deletion_among(self.find(behind), plot)
    }

    /// The first cell of a place's section at the place or after it.
    pub fn cell_from(&self, place: Place) -> Option<Cell>
        ensures { NextCell (content_of_run self.now) place result }
    {
        self.cell_among(self.find(place.into()), place)
    }

    /// The cell at a place.
    pub fn cell_at(&self, place: Place) -> Option<Cell>
        ensures { CellAt (content_of_run self.now) place result }
    {
        self.cell_from(place).filter(|c| c.place() == place)
    }
}
