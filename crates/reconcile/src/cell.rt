//! Which of two cells of one place is the greater.

ghost use Rattle.std.specs.Prelude.{◌≡◌, Some};
ghost use Rattle.records.specs.Order.{upto};
ghost use Rattle.records.specs.Content.{greater as greater_version, version_key};
ghost use Rattle.records.specs.Meaning.{version_of, greater_of};

use records::Cell;

// Whether a cell is no greater than another of its place. States, which are long, are looked at only where the stamps are
// the same.
#[tactic(auto, using(crate::proofs::Versions::same_stamp, crate::proofs::Versions::other_stamp))]
fn is_upto(a: &Cell, b: &Cell) -> bool
    ensures { result ≡ upto (version_key (version_of a.now)) (version_key (version_of b.now)) }
{
    if a.stamp() == b.stamp() {
        a.state().cmp(&b.state()).is_le()
    } else {
        a.stamp() < b.stamp()
    }
}

// Not one function with `later`: a line each, by another key, and `max_by_key` is no plainer.
/// The greater of two cells of one place, the second where they hold the same since the same stamp.
pub fn greater(a: Cell, b: Cell) -> Cell
    ensures cell { Some result ≡ greater_of (Some a) (Some b) }
    ensures version { Some (version_of result) ≡ greater_version (Some (version_of a)) (Some (version_of b)) }
{
    if is_upto(&a, &b) { b } else { a }
}
