//! Which of two deletions is the later, and what one covers.

ghost use Rattle.std.specs.Prelude.{◌≡◌, Some};
ghost use Rattle.records.specs.Content.{covered, one};
ghost use Rattle.records.specs.Meaning.{cover_on, deletion_says, later_of};

use records::{Cell, Deletion};

// Not one function with `greater`: a line each, by another key.
/// The later of two deletions, the second where their stamps and days are equal.
#[tactic(auto, unfolding(records::specs::Content::tombstone_key))]
pub fn later(a: Deletion, b: Deletion) -> Deletion
    ensures { Some result ≡ later_of (Some a) (Some b) }
{
    if a.tombstone() <= b.tombstone() { b } else { a }
}

/// Whether a deletion covers a cell: one on its plots with its stamp or a lower one.
pub fn covers(deletion: &Deletion, cell: &Cell) -> bool
    ensures { result ≡ covered (cover_on (one (deletion_says deletion.now)) cell.now.place.plot) cell.now.stamp }
{
    deletion.has(cell.place().plot) && cell.stamp() <= deletion.tombstone().stamp
}
