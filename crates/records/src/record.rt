use crate::cell::Cell;
use crate::deletion::Deletion;

/// One change to the register, as a station wrote it.
#[derive(Clone, Copy, PartialEq, Eq)]
pub enum Record {
    Deletion(Deletion),
    Cell(Cell),
}
