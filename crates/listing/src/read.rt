//! A file of records, read.

ghost use Rattle.std.specs.Prelude.{◌≡◌, map, IfOk};
ghost use Rattle.std.specs.List.{filter_map};
ghost use Rattle.std.specs.Result.{result_ok};
ghost use Rattle.layout.specs.Layout.{outcome};
ghost use Rattle.listing.specs.Lines.{lines_of, SheetOf};

use crate::count::count_sections;
use crate::sheet::Sheet;
use layout::{RecordFault, decode};
use records::Record;
use std::alloc::{AllocError, Global};

// Each 48 bytes decoded, and the rest.
fn read_lines(heap: Global, bytes: &[u8]) -> Result<Vec<Result<Record, RecordFault>>, AllocError>
    ensures { IfOk result (λ v. map outcome v.items ≡ lines_of bytes.now) }
{
    bytes.chunks(48).map(|piece| decode(piece)).collect(heap)
}

// The records among the lines.
fn well_formed(
    heap: Global,
    lines: &[Result<Record, RecordFault>],
) -> Result<Vec<Record>, AllocError>
    ensures { IfOk result (λ v. v.items ≡ filter_map result_ok lines.now) }
{
    lines.iter().filter_map(|line| line.ok()).collect(heap)
}

impl Sheet {
    /// Reads a file of records, of any length and content.
    #[tactic(auto, using(crate::proofs::Lines::records_among))]
    pub fn read(heap: Global, bytes: &[u8]) -> Result<Sheet, AllocError>
        ensures { IfOk result (λ s. SheetOf bytes.now s) }
    {
        let lines = read_lines(heap, bytes)?;
        let records = well_formed(heap, &lines)?;
        let counts = count_sections(heap, &records)?;
        Ok(Sheet { lines, counts })
    }
}
