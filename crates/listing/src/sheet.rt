use crate::section::SectionCount;
use layout::RecordFault;
use records::Record;

/// What a file of records says: a line for each 48 bytes, the last perhaps shorter, and the counts of each section.
#[derive(Drop)]
pub struct Sheet {
    pub lines: Vec<Result<Record, RecordFault>>,
    pub counts: Vec<SectionCount>,
}
