//! The cover of a plot and the cell of a place in the content of a list of records, by going through every record.

ghost use Rattle.std.specs.Prelude.{◌≡◌, map};
ghost use Rattle.std.specs.Option.{option_map};
ghost use Rattle.records.specs.Content.{later, one};
ghost use Rattle.records.specs.Meaning.{says, version_of, cover_on, held_at};
ghost use Rattle.listing.specs.Fold.{content_in, At, written};

use reconcile::{greater, later_cover, uncovered_cell};
use records::{Cell, Place, Plot, Record, Tombstone};

// What one record leaves on a plot.
fn cover_by(record: &Record, plot: Plot) -> Option<Tombstone>
    ensures { result ≡ cover_on (one (says «record».now)) plot }
{
    match record {
        Record::Deletion(deletion) if deletion.has(plot) => Some(deletion.tombstone()),
        _ => None,
    }
}

// The cell that one record writes at a place.
fn cell_by(record: &Record, place: Place) -> Option<Cell>
    ensures version { option_map version_of result ≡ held_at (one (says «record».now)) place }
    ensures place { At place result }
{
    match record {
        Record::Cell(cell) if cell.place() == place => Some(*cell),
        _ => None,
    }
}

// The latest of a cover and what each record leaves on a plot. The fold is over any cover, so that its proof can go on
// from each.
fn latest(cover: Option<Tombstone>, records: &[Record], plot: Plot) -> Option<Tombstone>
    ensures { result ≡ later cover (cover_on (content_in records.now) plot) }
{
    records
        .iter()
        .fold(cover, |cover, r| later_cover(cover, cover_by(r, plot)))
}

/// The cover of a plot: the latest deletion over it.
pub fn cover_at(records: &[Record], plot: Plot) -> Option<Tombstone>
    ensures { result ≡ cover_on (content_in records.now) plot }
{
    latest(None, records, plot)
}

// The greatest cell written at a place, covered or not.
fn written_at(records: &[Record], place: Place) -> Option<Cell>
    ensures version { option_map version_of result ≡ written (map says records.now) place }
    ensures place { At place result }
{
    records
        .iter()
        .filter_map(|r| cell_by(r, place))
        .reduce(|a, b| greater(a, b))
}

/// The cell at a place.
#[tactic(auto, using(crate::proofs::Folds::cell_is))]
pub fn cell_at(records: &[Record], place: Place) -> Option<Cell>
    ensures version { option_map version_of result ≡ held_at (content_in records.now) place }
    ensures place { At place result }
{
    let cover = cover_at(records, place.plot);
    uncovered_cell(cover, written_at(records, place))
}
