//! A table of bytes, and what is wrong with each.

use layout::{Part, RecordFault, decode, encode_decoded};

// The numbers of 48 bytes, those at 25 and at 47, and the row of the layout that they break.
#[derive(Clone, Copy)]
struct Case(u8, u8, u16, u32, u32, u64, u32, u8, u8, u8, Option<Part>);

const MOST: u64 = 9_223_372_036_854_775_807;

// kind, field, section, first plot, last plot, stamp, day, value length, byte 25, byte 47
const TABLE: [Case; 38] = [
    Case(1, 0, 1, 1, 1, 1, 1, 0, 0, 0, None),
    Case(1, 0, 9_999, 1, 999_999, MOST, 99_999, 0, 0, 0, None),
    Case(2, 1, 1, 1, 1, 1, 0, 0, 0, 0, None),
    Case(2, 32, 9_999, 999_999, 999_999, MOST, 0, 23, 255, 255, None),
    Case(3, 1, 1, 1, 1, 1, 1, 0, 0, 0, None),
    Case(3, 32, 9_999, 999_999, 999_999, MOST, 99_999, 0, 0, 0, None),
    Case(0, 1, 3, 5, 5, 7, 0, 0, 0, 0, Some(Part::Kind)),
    Case(4, 1, 3, 5, 5, 7, 0, 0, 0, 0, Some(Part::Kind)),
    Case(1, 1, 3, 5, 5, 7, 9, 0, 0, 0, Some(Part::Field)),
    Case(2, 0, 3, 5, 5, 7, 0, 0, 0, 0, Some(Part::Field)),
    Case(2, 33, 3, 5, 5, 7, 0, 0, 0, 0, Some(Part::Field)),
    Case(3, 0, 3, 5, 5, 7, 9, 0, 0, 0, Some(Part::Field)),
    Case(3, 33, 3, 5, 5, 7, 9, 0, 0, 0, Some(Part::Field)),
    Case(1, 0, 0, 5, 5, 7, 9, 0, 0, 0, Some(Part::Section)),
    Case(2, 1, 10_000, 5, 5, 7, 0, 0, 0, 0, Some(Part::Section)),
    Case(2, 1, 3, 0, 0, 7, 0, 0, 0, 0, Some(Part::FirstPlot)),
    Case(
        3,
        1,
        3,
        1_000_000,
        1_000_000,
        7,
        9,
        0,
        0,
        0,
        Some(Part::FirstPlot),
    ),
    Case(1, 0, 3, 5, 4, 7, 9, 0, 0, 0, Some(Part::LastPlot)),
    Case(1, 0, 3, 5, 1_000_000, 7, 9, 0, 0, 0, Some(Part::LastPlot)),
    Case(2, 1, 3, 5, 6, 7, 0, 0, 0, 0, Some(Part::LastPlot)),
    Case(3, 1, 3, 5, 4, 7, 9, 0, 0, 0, Some(Part::LastPlot)),
    Case(1, 0, 3, 5, 6, 0, 9, 0, 0, 0, Some(Part::Stamp)),
    Case(2, 1, 3, 5, 5, MOST + 1, 0, 0, 0, 0, Some(Part::Stamp)),
    Case(1, 0, 3, 5, 6, 7, 0, 0, 0, 0, Some(Part::Day)),
    Case(1, 0, 3, 5, 6, 7, 100_000, 0, 0, 0, Some(Part::Day)),
    Case(2, 1, 3, 5, 5, 7, 1, 0, 0, 0, Some(Part::Day)),
    Case(3, 1, 3, 5, 5, 7, 0, 0, 0, 0, Some(Part::Day)),
    Case(3, 1, 3, 5, 5, 7, 100_000, 0, 0, 0, Some(Part::Day)),
    Case(1, 0, 3, 5, 6, 7, 9, 1, 0, 0, Some(Part::ValueLength)),
    Case(2, 1, 3, 5, 5, 7, 0, 24, 0, 0, Some(Part::ValueLength)),
    Case(3, 1, 3, 5, 5, 7, 9, 1, 0, 0, Some(Part::ValueLength)),
    Case(1, 0, 3, 5, 6, 7, 9, 0, 1, 0, Some(Part::Value)),
    Case(2, 1, 3, 5, 5, 7, 0, 0, 1, 0, Some(Part::Value)),
    Case(2, 1, 3, 5, 5, 7, 0, 1, 1, 1, Some(Part::Value)),
    Case(2, 1, 3, 5, 5, 7, 0, 22, 1, 1, Some(Part::Value)),
    Case(3, 1, 3, 5, 5, 7, 9, 0, 0, 1, Some(Part::Value)),
    Case(1, 0, 0, 0, 0, 0, 0, 1, 1, 1, Some(Part::Section)),
    Case(
        255,
        255,
        65_535,
        4_294_967_295,
        0,
        0,
        0,
        255,
        255,
        255,
        Some(Part::Kind),
    ),
];

fn bytes_of(case: Case) -> [u8; 48] {
    let Case(kind, field, section, first, last, stamp, day, len, front, behind, _) = case;
    let mut b = [0u8; 48];
    b[0] = kind;
    b[1] = field;
    b[2..4].copy_from_slice(&section.to_be_bytes());
    b[4..8].copy_from_slice(&first.to_be_bytes());
    b[8..12].copy_from_slice(&last.to_be_bytes());
    b[12..20].copy_from_slice(&stamp.to_be_bytes());
    b[20..24].copy_from_slice(&day.to_be_bytes());
    b[24] = len;
    b[25] = front;
    b[47] = behind;
    b
}

#[test]
fn each_row_of_the_layout_at_both_ends(rt: HostRuntime) {
    for case in &TABLE {
        let bytes = bytes_of(*case);
        let expected = case.10.map(RecordFault::Malformed);
        assert!(rt; encode_decoded(&bytes).err() == expected);
        if expected.is_none() {
            assert!(rt; encode_decoded(&bytes).ok() == Some(bytes));
        }
    }
}

#[test]
fn only_48_bytes_are_a_record(rt: HostRuntime) {
    let zeros = [0u8; 49];
    assert!(rt; decode(&zeros[0..0]).err() == Some(RecordFault::Length));
    assert!(rt; decode(&zeros[0..47]).err() == Some(RecordFault::Length));
    assert!(rt; decode(&zeros[0..48]).err() == Some(RecordFault::Malformed(Part::Kind)));
    assert!(rt; decode(&zeros[0..49]).err() == Some(RecordFault::Length));
}
