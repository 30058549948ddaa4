//! Files that are runs, files that are none, and what is said of each.

use layout::{Part, RecordFault, Refusal, encode};
use records::{Cell, Deletion, Place, Plot, Record, Tombstone, Value};
use runs::{Disorder, FaultAt, Run, RunFault};
use std::alloc::{AllocError, Global};
use std::process::Abort;
use std::test::Fail;
use wording::run_line;

type Bytes = [u8; 48];

// No record: its kind is 0.
const MALFORMED: Bytes = [0; 48];

fn written(record: Option<Record>) -> Bytes {
    record.map_or(MALFORMED, |r| encode(&r))
}

fn deletion(section: u16, first: u32, last: u32, stamp: u64, day: u32) -> Bytes {
    let deletion = Deletion::new(section, first, last, Tombstone { stamp, day });
    written(deletion.map(Record::Deletion))
}

fn plot(section: u16, number: u32) -> Plot {
    Plot { section, number }
}

fn place(section: u16, number: u32, field: u8) -> Place {
    let plot = plot(section, number);
    Place { plot, field }
}

// A live cell with an empty value.
fn cell(section: u16, number: u32, field: u8, stamp: u64) -> Bytes {
    let place = place(section, number, field);
    let cell = Value::new(b"").and_then(|value| Cell::live(place, stamp, value));
    written(cell.map(Record::Cell))
}

fn file(heap: Global, records: &[Bytes]) -> Result<Vec<u8>, AllocError> {
    records.concat(heap)
}

// The handle that ends a test gives no memory, so the two go side by side here and below: a struct of both is no plainer.
fn is_run(rt: &impl Abort, heap: Global, records: &[Bytes]) -> Result<(), Fail> {
    let bytes = file(heap, records)?;
    let run = Run::open(&bytes)?;
    assert_eq!(rt; run.len(), records.len());
    Ok(())
}

fn is_refused(
    rt: &impl Abort,
    heap: Global,
    records: &[Bytes],
    fault: RunFault,
) -> Result<(), Fail> {
    let bytes = file(heap, records)?;
    assert_eq!(rt; Run::open(&bytes).err(), Some(fault));
    Ok(())
}

fn malformed(index: usize, part: Part) -> RunFault {
    RunFault::Record(FaultAt {
        index,
        fault: RecordFault::Malformed(part),
    })
}

fn disordered(index: usize, why: Disorder) -> RunFault {
    RunFault::Order { index, why }
}

// The second of two records is out of order, also behind one that is not.
fn clash(rt: &impl Abort, heap: Global, x: Bytes, y: Bytes, why: Disorder) -> Result<(), Fail> {
    is_refused(rt, heap, &[x, y], disordered(1, why))?;
    is_refused(rt, heap, &[cell(1, 1, 1, 1), x, y], disordered(2, why))
}

#[test]
fn runs_of_any_length(rt: HostRuntime) -> Result<(), Fail> {
    let heap = rt.alloc();
    is_run(&rt, heap, &[])?;
    is_run(&rt, heap, &[cell(1, 1, 1, 5)])?;
    is_run(&rt, heap, &[deletion(9_999, 1, 999_999, 5, 7)])?;
    is_run(
        &rt,
        heap,
        &[
            deletion(2, 3, 4, 5, 7),
            cell(2, 1, 2, 5),
            cell(2, 2, 1, 5),
            cell(2, 2, 2, 5),
            deletion(3, 1, 2, 5, 7),
            cell(4, 1, 1, 5),
        ],
    )
}

#[test]
fn an_empty_run_is_refused_where_records_are_wanted(rt: HostRuntime) -> Result<(), Fail> {
    let run = Run::open(&[])?;
    assert_eq!(rt; run.filled().err(), Some(RunFault::Empty));
    let bytes = file(rt.alloc(), &[cell(1, 1, 1, 5)])?;
    let one = Run::open(&bytes)?;
    assert_eq!(rt; one.filled()?.len(), 1);
    Ok(())
}

#[test]
fn whole_records_only(rt: HostRuntime) -> Result<(), Fail> {
    let mut bytes = file(rt.alloc(), &[cell(1, 1, 1, 5)])?;
    bytes.truncate(47);
    assert_eq!(rt; Run::open(&bytes).err(), Some(RunFault::Length));
    bytes.extend_from_slice(&[0, 0])?;
    assert_eq!(rt; Run::open(&bytes).err(), Some(RunFault::Length));
    Ok(())
}

#[test]
fn records_in_order(rt: HostRuntime) -> Result<(), Fail> {
    let pairs = [
        (cell(3, 1, 1, 5), cell(2, 1, 1, 5)),
        (deletion(3, 1, 1, 5, 7), deletion(2, 1, 1, 5, 7)),
        (cell(2, 1, 1, 5), deletion(2, 3, 4, 5, 7)),
        (deletion(2, 3, 4, 5, 7), deletion(2, 1, 1, 5, 7)),
        (deletion(2, 3, 4, 5, 7), deletion(2, 3, 4, 5, 7)),
        (cell(2, 2, 1, 5), cell(2, 1, 2, 5)),
        (cell(2, 2, 2, 5), cell(2, 2, 1, 5)),
        (cell(2, 2, 2, 5), cell(2, 2, 2, 6)),
    ];
    for (x, y) in &pairs {
        clash(&rt, rt.alloc(), *x, *y, Disorder::Unsorted)?;
    }
    Ok(())
}

#[test]
fn deletions_apart(rt: HostRuntime) -> Result<(), Fail> {
    let heap = rt.alloc();
    let x = deletion(2, 3, 6, 5, 7);
    clash(&rt, heap, x, deletion(2, 6, 8, 6, 8), Disorder::Spans)?;
    clash(&rt, heap, x, deletion(2, 4, 5, 5, 7), Disorder::Spans)?;
    clash(&rt, heap, x, deletion(2, 7, 8, 5, 7), Disorder::Spans)?;
    is_run(&rt, heap, &[x, deletion(2, 7, 8, 6, 7)])?;
    is_run(&rt, heap, &[x, deletion(2, 7, 8, 5, 8)])?;
    is_run(&rt, heap, &[x, deletion(2, 8, 9, 5, 7)])?;
    is_run(&rt, heap, &[x, deletion(3, 4, 5, 5, 7)])
}

#[test]
fn cells_uncovered(rt: HostRuntime) -> Result<(), Fail> {
    let heap = rt.alloc();
    let x = deletion(2, 3, 6, 5, 7);
    clash(&rt, heap, x, cell(2, 3, 1, 5), Disorder::Covered)?;
    clash(&rt, heap, x, cell(2, 6, 1, 4), Disorder::Covered)?;
    is_run(
        &rt,
        heap,
        &[
            x,
            cell(2, 2, 1, 5),
            cell(2, 3, 1, 6),
            cell(2, 7, 1, 5),
            cell(3, 4, 1, 5),
        ],
    )?;
    let y = deletion(2, 7, 9, 6, 7);
    let late = [x, y, cell(2, 4, 1, 6), cell(2, 8, 1, 7), cell(2, 9, 1, 6)];
    is_refused(&rt, heap, &late, disordered(4, Disorder::Covered))?;
    let early = [x, y, cell(2, 4, 1, 5)];
    is_refused(&rt, heap, &early, disordered(2, Disorder::Covered))
}

#[test]
fn the_first_faulty_record_decides(rt: HostRuntime) -> Result<(), Fail> {
    let heap = rt.alloc();
    let (x, y) = (cell(1, 1, 1, 5), cell(1, 2, 1, 5));
    let mut bad = cell(1, 2, 1, 5);
    bad[1] = 33;
    is_refused(&rt, heap, &[x, bad, y], malformed(1, Part::Field))?;
    is_refused(&rt, heap, &[x, bad, y, x], malformed(1, Part::Field))?;
    is_refused(&rt, heap, &[MALFORMED, bad], malformed(0, Part::Kind))?;
    is_refused(&rt, heap, &[y, x, bad], disordered(1, Disorder::Unsorted))
}

// A refusal's number, layer, index and byte.
fn told(refusal: Refusal) -> (u8, u8, usize, u8) {
    (
        refusal.number.into(),
        refusal.layer.into(),
        refusal.index,
        refusal.byte,
    )
}

#[test]
fn refusals(rt: HostRuntime) {
    let order = disordered(6, Disorder::Spans);
    assert_eq!(rt; told(RunFault::Length.refusal()), (1, 2, 0, 0));
    assert_eq!(rt; told(malformed(5, Part::Stamp).refusal()), (2, 1, 5, 12));
    assert_eq!(rt; told(order.refusal()), (3, 2, 6, 0));
    assert_eq!(rt; told(RunFault::Empty.refusal()), (4, 2, 0, 0));
}

// In each of 32 sections one deletion and 31 cells.
fn large(heap: Global) -> Result<Vec<u8>, AllocError> {
    let mut bytes = Vec::new(heap);
    for section in 1..=32 {
        bytes.extend_from_slice(&deletion(section, 40, 50, 5, 7))?;
        for plot in 1..=31 {
            bytes.extend_from_slice(&cell(section, plot, 1, 5))?;
        }
    }
    Ok(bytes)
}

#[test]
fn a_run_of_1_024_records(rt: HostRuntime) -> Result<(), Fail> {
    let bytes = large(rt.alloc())?;
    let run = Run::open(&bytes)?;
    assert_eq!(rt; run.len(), 1_024);
    assert!(rt; run.record(1_024).is_none());
    let last = run
        .record(1_023)
        .ok_or_else(|| Fail::new("no last record"))?;
    assert_eq!(rt; last.index(), 1_023);
    assert!(rt; last.bytes() == cell(32, 31, 1, 5).as_slice());
    assert!(rt; encode(&last.record()) == cell(32, 31, 1, 5));
    Ok(())
}

fn plots(deletion: Option<Deletion>) -> Option<(u32, u32)> {
    deletion.map(|d| (d.first(), d.last()))
}

#[test]
fn deletions_looked_up(rt: HostRuntime) -> Result<(), Fail> {
    let bytes = large(rt.alloc())?;
    let run = Run::open(&bytes)?;
    for number in [40, 45, 50] {
        assert_eq!(rt; plots(run.deletion_over(plot(1, number))), Some((40, 50)));
        assert_eq!(rt; plots(run.deletion_over(plot(32, number))), Some((40, 50)));
    }
    for number in [0, 39, 51, u32::MAX] {
        assert_eq!(rt; plots(run.deletion_over(plot(7, number))), None);
    }
    assert_eq!(rt; plots(run.deletion_over(plot(0, 45))), None);
    assert_eq!(rt; plots(run.deletion_over(plot(33, 45))), None);
    Ok(())
}

fn place_of(cell: Option<Cell>) -> Option<Place> {
    cell.map(|c| c.place())
}

#[test]
fn cells_looked_up(rt: HostRuntime) -> Result<(), Fail> {
    let bytes = large(rt.alloc())?;
    let run = Run::open(&bytes)?;
    assert_eq!(rt;
        place_of(run.cell_at(place(7, 31, 1))),
        Some(place(7, 31, 1))
    );
    assert_eq!(rt;
        place_of(run.cell_at(place(32, 31, 1))),
        Some(place(32, 31, 1))
    );
    assert_eq!(rt; place_of(run.cell_at(place(7, 31, 2))), None);
    assert_eq!(rt; place_of(run.cell_at(place(7, 32, 1))), None);
    assert_eq!(rt;
        place_of(run.cell_from(place(7, 0, 0))),
        Some(place(7, 1, 1))
    );
    assert_eq!(rt;
        place_of(run.cell_from(place(7, 5, 1))),
        Some(place(7, 5, 1))
    );
    assert_eq!(rt;
        place_of(run.cell_from(place(7, 5, 2))),
        Some(place(7, 6, 1))
    );
    assert_eq!(rt; place_of(run.cell_from(place(7, 31, 2))), None);
    assert_eq!(rt; place_of(run.cell_from(place(33, 1, 1))), None);
    Ok(())
}

#[test]
fn one_content_has_one_run(rt: HostRuntime) -> Result<(), Fail> {
    let (x, y) = (cell(1, 1, 1, 5), cell(1, 2, 1, 5));
    let (a, b) = (file(rt.alloc(), &[x, y])?, file(rt.alloc(), &[x, y])?);
    let other = file(rt.alloc(), &[x, cell(1, 2, 1, 6)])?;
    let run = Run::open(&a)?;
    assert!(rt; run.same_content(&Run::open(&b)?));
    assert!(rt; !run.same_content(&Run::open(&other)?));
    Ok(())
}

fn is_called(
    rt: &impl Abort,
    heap: Global,
    opened: Result<Run<'_>, RunFault>,
    words: &str,
) -> Result<(), Fail> {
    let line = run_line(heap, opened)?;
    assert_eq!(rt; line.as_str(), words);
    Ok(())
}

#[test]
fn in_words(rt: HostRuntime) -> Result<(), Fail> {
    let heap = rt.alloc();
    let bytes = large(heap)?;
    is_called(&rt, heap, Run::open(&bytes), "a run, records: 1024")?;
    let table = [
        (
            RunFault::Length,
            "no run: refused, 1 length: not a multiple of 48 bytes",
        ),
        (
            malformed(5, Part::Stamp),
            "no run, record 5: refused, 2 malformed at byte 12: stamp",
        ),
        (
            disordered(6, Disorder::Covered),
            "no run, record 6: refused, 3 order: a deletion before it covers it",
        ),
        (RunFault::Empty, "no run: refused, 4 empty: no records"),
    ];
    for (fault, words) in &table {
        is_called(&rt, heap, Err(*fault), *words)?;
    }
    Ok(())
}
