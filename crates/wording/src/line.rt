//! The lines of a sheet.

ghost use Rattle.std.specs.Prelude.{◌≡◌, IfOk, string_bytes, Some};
ghost use Rattle.layout.specs.Layout.{outcome};
ghost use Rattle.wording.specs.Words.{outcome_text, record_line, section_line};

use crate::words::Words;
use layout::RecordFault;
use listing::SectionCount;
use records::Record;
use std::alloc::{AllocError, Global};
use std::fmt;

impl fmt::Display for Words<Result<Record, RecordFault>> {
    ghost output = { λ w. Some (outcome_text (outcome w.0)) };

    fn fmt<W: fmt::Write>(&self, f: &mut fmt::Formatter<W>) -> fmt::Result {
        match self.0 {
            Ok(record) => Words(record).fmt(f),
            Err(fault) => Words(fault).fmt(f),
        }
    }
}

/// The record with this index: what it says, or why its bytes are none.
pub fn record_line(
    heap: Global,
    index: usize,
    read: &Result<Record, RecordFault>,
) -> Result<String, AllocError>
    ensures { IfOk result (λ s. string_bytes s ≡ record_line index (outcome read.now)) }
{
    format!(in heap; "record {index}: {}", Words(*read))
}

/// The plots of a section.
pub fn section_line(heap: Global, count: SectionCount) -> Result<String, AllocError>
    ensures { IfOk result (λ s. string_bytes s ≡ section_line count) }
{
    let plots = count.plots;
    format!(in heap;
        "section {}: {} listed, {} free",
        count.section, plots.listed, plots.free
    )
}
