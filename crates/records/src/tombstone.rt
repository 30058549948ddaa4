/// What a deletion leaves on each of its plots: when it was made, and its day for purging. Of two the later is the greater.
#[derive(Clone, Copy, PartialEq, Eq, PartialOrd, Ord)]
pub struct Tombstone {
    pub stamp: u64,
    pub day: u32,
}
