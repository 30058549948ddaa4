//! The keys of records: what a run goes by.

ghost use Rattle.std.specs.Prelude.{◌≡◌, [], ◌∷◌};
ghost use Rattle.records.specs.Meaning.{says};
ghost use Rattle.layout.specs.Layout.{row_at, mutation_in};
ghost use Rattle.canon.specs.Run.{key_of};
ghost use Rattle.runs.specs.Keys.{numbers_of};

use layout::{Kind, Part};
use records::{Place, Record};

/// Deletions come before cells.
#[derive(Clone, Copy, PartialEq, Eq, PartialOrd, Ord)]
pub(crate) enum Class {
    Deletion,
    Cell,
}

/// What the records of a run go by: section, class, first plot and field, in this order.
#[derive(Clone, Copy, PartialEq, Eq, PartialOrd, Ord)]
pub(crate) struct Key {
    pub(crate) section: u16,
    pub(crate) class: Class,
    pub(crate) first: u32,
    pub(crate) field: u8,
}

// The key of the cell at a place.
impl From<Place> for Key {
    ghost from_gives = { λ p key. numbers_of key ≡ p.plot.section ∷ 1 ∷ p.plot.number ∷ p.field ∷ [] };

    fn from(place: Place) -> Key {
        Key {
            section: place.plot.section,
            class: Class::Cell,
            first: place.plot.number,
            field: place.field,
        }
    }
}

// The key of a record.
impl From<&Record> for Key {
    ghost from_gives = { λ r key. numbers_of key ≡ key_of (says r.now) };

    fn from(record: &Record) -> Key {
        match record {
            Record::Deletion(d) => Key {
                section: d.section(),
                class: Class::Deletion,
                first: d.first(),
                field: 0,
            },
            Record::Cell(c) => c.place().into(),
        }
    }
}

impl Key {
    // The key of what 48 bytes write, lawful or not, read from where it stands there. Not a `From`, which would be no plainer:
    // it reads a part of them. `as` is the plainest word for the number of a part, and `first_chunk` for its bytes.
    pub(crate) fn read(b: &[u8; 48]) -> Key
        ensures { numbers_of result ≡ key_of (mutation_in (row_at b.now)) }
    {
        let (class, field) = match Kind::try_from(b[Part::Kind as usize]) {
            Ok(Kind::Deletion) => (Class::Deletion, 0),
            _ => (Class::Cell, b[Part::Field as usize]),
        };
        let section = b[Part::Section as usize..].first_chunk().unwrap();
        let first = b[Part::FirstPlot as usize..].first_chunk().unwrap();
        Key {
            section: u16::from_be_bytes(*section),
            class,
            first: u32::from_be_bytes(*first),
            field,
        }
    }
}
