//! The numbers that 48 bytes write.

ghost use Rattle.std.specs.Prelude.{◌≡◌};

use crate::bytes::{array_at, write};
use crate::part::Part;

/// The numbers that 48 bytes write, lawful or not.
// The kind is a number: so a record's bytes are, and they may break the rules. A length stands beside the value: a `Vec`
// would let calls fail that cannot fail.
#[derive(Clone, Copy)]
pub(crate) struct Row {
    pub(crate) kind: u8,
    pub(crate) field: u8,
    pub(crate) section: u16,
    pub(crate) first: u32,
    pub(crate) last: u32,
    pub(crate) stamp: u64,
    pub(crate) day: u32,
    pub(crate) len: u8,
    pub(crate) value: [u8; 23],
}

impl From<&[u8; 48]> for Row {
    ghost use Rattle.layout.specs.Layout.{IsBytesOf};

    ghost from_gives = { λ b r. IsBytesOf r b.now };

    fn from(b: &[u8; 48]) -> Row {
        Row {
            // `as` is the plainest word for the number of a variant.
            kind: b[Part::Kind as usize],
            field: b[Part::Field as usize],
            section: u16::from_be_bytes(array_at(b, Part::Section)),
            first: u32::from_be_bytes(array_at(b, Part::FirstPlot)),
            last: u32::from_be_bytes(array_at(b, Part::LastPlot)),
            stamp: u64::from_be_bytes(array_at(b, Part::Stamp)),
            day: u32::from_be_bytes(array_at(b, Part::Day)),
            len: b[Part::ValueLength as usize],
            value: array_at(b, Part::Value),
        }
    }
}

impl From<Row> for [u8; 48] {
    ghost use Rattle.layout.specs.Layout.{IsBytesOf};

    ghost from_gives = { λ r b. IsBytesOf r b };

    fn from(row: Row) -> [u8; 48] {
        let mut b = [0; 48];
        write(&mut b, Part::Kind, &[row.kind]);
        write(&mut b, Part::Field, &[row.field]);
        write(&mut b, Part::Section, &row.section.to_be_bytes());
        write(&mut b, Part::FirstPlot, &row.first.to_be_bytes());
        write(&mut b, Part::LastPlot, &row.last.to_be_bytes());
        write(&mut b, Part::Stamp, &row.stamp.to_be_bytes());
        write(&mut b, Part::Day, &row.day.to_be_bytes());
        write(&mut b, Part::ValueLength, &[row.len]);
        write(&mut b, Part::Value, &row.value);
        b
    }
}
