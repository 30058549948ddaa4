use layout::RecordFault;

/// The fault of a record, and the record's index.
#[derive(Clone, Copy, PartialEq, Eq, Debug)]
pub struct FaultAt {
    pub index: usize,
    pub fault: RecordFault,
}

/// Why a record may not follow those before it.
#[derive(Clone, Copy, PartialEq, Eq, Debug)]
pub enum Disorder {
    /// It does not come after each of them by section, deletion before cell, first plot and field.
    Unsorted,
    /// It is a deletion that overlaps one of them, or goes on where one with its stamp and day ends.
    Spans,
    /// It is a cell that one of them covers.
    Covered,
}

/// Why bytes are no run, or none that is wanted.
#[derive(Clone, Copy, PartialEq, Eq, Debug)]
pub enum RunFault {
    /// They are no multiple of 48.
    Length,
    /// The first faulty record is malformed.
    Record(FaultAt),
    /// The first faulty record is out of order: those before it form a run, and those with it do not.
    Order { index: usize, why: Disorder },
    /// They hold no record.
    Empty,
}
