//! Reconciling at a plot and at a place.

ghost use Rattle.std.specs.Prelude.{◌≡◌};
ghost use Rattle.std.specs.Option.{option_map};
ghost use Rattle.records.specs.Content.{later, greater as greater_version, uncovered};
ghost use Rattle.records.specs.Meaning.{version_of, greater_of, uncovered_of};

use crate::cell::greater;
use records::{Cell, Tombstone};

/// The later of two covers; none is earlier than all.
#[tactic(auto, unfolding(records::specs::Content::tombstone_key))]
pub fn later_cover(a: Option<Tombstone>, b: Option<Tombstone>) -> Option<Tombstone>
    ensures { result ≡ later a b }
{
    a.max(b)
}

/// The greater of two cells of one place; none is below all.
pub fn greater_cell(a: Option<Cell>, b: Option<Cell>) -> Option<Cell>
    ensures cell { result ≡ greater_of a b }
    ensures version { option_map version_of result ≡ greater_version (option_map version_of a) (option_map version_of b) }
{
    match (a, b) {
        (Some(x), Some(y)) => Some(greater(x, y)),
        _ => a.or(b),
    }
}

/// The cell, or none where the cover covers it.
pub fn uncovered_cell(cover: Option<Tombstone>, cell: Option<Cell>) -> Option<Cell>
    ensures cell { result ≡ uncovered_of cover cell }
    ensures version { option_map version_of result ≡ uncovered cover (option_map version_of cell) }
{
    cell.filter(|c| !cover.is_some_and(|t| c.stamp() <= t.stamp))
}
