//! Lawful rows as records, and records as lawful rows.

ghost use Rattle.records.specs.Meaning.{says, deletion_says, cell_says};
ghost use Rattle.layout.specs.Layout.{IsRowOf};

use crate::kind::Kind;
use crate::row::Row;
use crate::rules::LawfulRow;
use records::{Cell, Deletion, Place, Plot, Record, State, Tombstone, Value};

impl From<LawfulRow> for Record {
    ghost from_gives = { λ l r. IsRowOf (says r) l.row };

    // Inlined, so that a row need not stand in memory first.
    #[inline(always)]
    fn from(lawful: LawfulRow) -> Record {
        let row = lawful.row;
        let plot = Plot {
            section: row.section,
            number: row.first,
        };
        let place = Place {
            plot,
            field: row.field,
        };
        match lawful.kind() {
            Kind::Deletion => {
                let tombstone = Tombstone {
                    stamp: row.stamp,
                    day: row.day,
                };
                let deletion = Deletion::new(row.section, row.first, row.last, tombstone);
                Record::Deletion(deletion.unwrap())
            }
            Kind::Live => {
                let value = Value::new(&row.value[..usize::from(row.len)]).unwrap();
                Record::Cell(Cell::live(place, row.stamp, value).unwrap())
            }
            Kind::Cleared => Record::Cell(Cell::cleared(place, row.stamp, row.day).unwrap()),
        }
    }
}

impl From<&Deletion> for LawfulRow {
    ghost from_gives = { λ d l. IsRowOf (deletion_says d.now) l.row };

    fn from(d: &Deletion) -> LawfulRow {
        let Tombstone { stamp, day } = d.tombstone();
        LawfulRow {
            row: Row {
                kind: Kind::Deletion as u8,
                field: 0,
                section: d.section(),
                first: d.first(),
                last: d.last(),
                stamp,
                day,
                len: 0,
                value: [0; 23],
            },
        }
    }
}

impl From<&Cell> for LawfulRow {
    ghost from_gives = { λ c l. IsRowOf (cell_says c.now) l.row };

    fn from(c: &Cell) -> LawfulRow {
        let Place { plot, field } = c.place();
        // The numbers of variants by `as`; the length is proved to fit, and `try_from` would test it again.
        let (kind, day, len, value) = match c.state() {
            State::Live(v) => (Kind::Live as u8, 0, v.bytes().len() as u8, v.padded()),
            State::Cleared(day) => (Kind::Cleared as u8, day, 0, [0; 23]),
        };
        LawfulRow {
            row: Row {
                kind,
                field,
                section: plot.section,
                first: plot.number,
                last: plot.number,
                stamp: c.stamp(),
                day,
                len,
                value,
            },
        }
    }
}

impl From<&Record> for LawfulRow {
    ghost from_gives = { λ x l. IsRowOf (says x.now) l.row };

    fn from(record: &Record) -> LawfulRow {
        match record {
            Record::Deletion(d) => LawfulRow::from(d),
            Record::Cell(c) => LawfulRow::from(c),
        }
    }
}
