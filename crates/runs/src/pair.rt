//! Two records of a run.

ghost use Rattle.std.specs.Prelude.{◌≡◌, Decides};
ghost use Rattle.records.specs.Meaning.{says, deletion_says};
ghost use Rattle.canon.specs.Run.{ascends as is_ascending, apart as is_apart};
ghost use Rattle.canon.specs.Check.{Passed};

use crate::key::Key;
use reconcile::covers;
use records::{Deletion, Record};

// Whether x has the lesser key.
pub(crate) fn ascends(x: &Record, y: &Record) -> bool
    ensures { result ≡ is_ascending (says x.now) (says y.now) }
{
    Key::from(x) < Key::from(y)
}

// Whether two deletions, the first with the lesser key, neither overlap nor touch with the same stamp and day.
fn deletions_apart(x: &Deletion, y: &Deletion) -> bool
    ensures { result ≡ is_apart (deletion_says x.now) (deletion_says y.now) }
{
    let touching = x.last() + 1 == y.first();
    x.section() != y.section()
        || x.last() < y.first() && !(touching && x.tombstone() == y.tombstone())
}

// Whether x leaves y, which has the greater key, its place.
pub(crate) fn apart(x: &Record, y: &Record) -> bool
    ensures { result ≡ is_apart (says x.now) (says y.now) }
{
    match (x, y) {
        (Record::Deletion(d), Record::Deletion(e)) => deletions_apart(d, e),
        (Record::Deletion(d), Record::Cell(c)) => !covers(d, c),
        (Record::Cell(_), _) => true,
    }
}

// Whether x can cover neither y, which has the greater key, nor what follows y.
pub(crate) fn passed(x: &Record, y: &Record) -> bool
    ensures { Decides result (Passed (says x.now) (says y.now)) }
{
    match (x, y) {
        (Record::Deletion(d), Record::Cell(c)) if d.section() == c.section() => d.last() < c.plot(),
        _ => Key::from(x).section < Key::from(y).section,
    }
}
