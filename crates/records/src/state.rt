use crate::value::Value;

/// What a cell holds: a value, or nothing since it was cleared, with its day for purging.
#[derive(Clone, Copy, PartialEq, Eq, PartialOrd, Ord)]
pub enum State {
    Live(Value),
    Cleared(u32),
}
