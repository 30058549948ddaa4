//! The worked examples of reconciling, run in both orders.

use listing::cell_at;
use records::{Cell, Deletion, Place, Plot, Record, Tombstone, Value};
use std::process::Abort;
use std::test::Fail;

const PLACE: Place = Place {
    plot: Plot {
        section: 1,
        number: 1,
    },
    field: 1,
};

fn live(stamp: u64, text: &[u8]) -> Option<Cell> {
    Cell::live(PLACE, stamp, Value::new(text)?)
}

// Two records at section 1, plot 1, field 1 come to the cell there, in either order.
fn come_to(
    rt: &impl Abort,
    a: Option<Record>,
    b: Option<Record>,
    cell: Option<Cell>,
) -> Result<(), Fail> {
    let x = a.ok_or_else(|| Fail::new("the first is no record"))?;
    let y = b.ok_or_else(|| Fail::new("the second is no record"))?;
    assert!(rt; cell_at(&[x, y], PLACE) == cell);
    assert!(rt; cell_at(&[y, x], PLACE) == cell);
    Ok(())
}

fn written(cell: Option<Cell>) -> Option<Record> {
    cell.map(Record::Cell)
}

fn deleted(stamp: u64, day: u32) -> Option<Record> {
    Deletion::new(1, 1, 1, Tombstone { stamp, day }).map(Record::Deletion)
}

#[test]
fn the_greater_value_wins(rt: HostRuntime) -> Result<(), Fail> {
    come_to(
        &rt,
        written(live(5, b"a")),
        written(live(5, b"b")),
        live(5, b"b"),
    )?;
    come_to(
        &rt,
        written(live(5, b"a")),
        written(live(5, b"ab")),
        live(5, b"ab"),
    )
}

#[test]
fn cleared_beats_live(rt: HostRuntime) -> Result<(), Fail> {
    let cleared = Cell::cleared(PLACE, 5, 7);
    come_to(&rt, written(live(5, b"a")), written(cleared), cleared)
}

#[test]
fn a_deletion_covers_up_to_its_stamp(rt: HostRuntime) -> Result<(), Fail> {
    come_to(&rt, deleted(5, 7), written(live(5, b"a")), None)?;
    come_to(&rt, deleted(5, 7), written(live(6, b"a")), live(6, b"a"))
}
