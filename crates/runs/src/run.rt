//! A run: bytes that are records in order.

ghost use Rattle.std.specs.Prelude.{◌≡◌, ℕ, List, slice_index_or, ◌/◌, ◌<◌, ◌≤◌, length, IfOk, if◌then◌else◌, Some, None, Decides, MatchOption, MatchResult, nat_eq, ◌==◌};
ghost use Rattle.std.specs.Result.{result_err};
ghost use Rattle.runs.specs.declared.fault.RunFault.TheVariants.{Empty};
ghost use Rattle.records.specs.Meaning.{says};
ghost use Rattle.layout.specs.Pieces.{piece, mutation_at};
ghost use Rattle.runs.specs.Faults.{run_fault};
ghost use Rattle.runs.specs.RunBytes.{RunBytes, FaultOfRun};

use crate::check::check;
use crate::fault::RunFault;
use crate::view::RecordView;
use layout::decode_lawful;
use records::Record;

/// Bytes that are a run. They are read where they lie, and never checked again.
#[derive(Clone, Copy)]
pub struct Run<'a> {
    pub(crate) bytes: &'a [u8],
    pub ghost run: { RunBytes bytes.now },
}

impl<'a> Run<'a> {
    ghost use Rattle.runs.specs.Opened.{bytes_in, size, content_of_run, Opened, ViewAt};

    /// The run in bytes of any length and content, or why they are none.
    pub fn open(bytes: &'a [u8]) -> Result<Run<'a>, RunFault>
        ensures fault { result_err result ≡ run_fault bytes.now }
        ensures bytes { IfOk result (λ run. run.bytes ≡ bytes.entry) }
        ensures means { MatchResult result (λ run. Opened run) (λ f. FaultOfRun bytes.now f) }
    {
        check(bytes)?;
        Ok(Run { bytes })
    }

    /// How many records it has.
    pub fn len(&self) -> usize
        ensures { result ≡ size self.now }
    {
        self.bytes.len() / 48
    }

    /// Whether it holds nothing.
    pub fn is_empty(&self) -> bool
        ensures { result ≡ (size self.now == 0) }
    {
        self.len() == 0
    }

    /// The run, unless it holds nothing.
    pub fn filled(self) -> Result<Run<'a>, RunFault>
        ensures fault { result_err result ≡ (if nat_eq (size self.entry) 0 then Some Empty else None) }
        ensures run { IfOk result (λ run. run ≡ self.entry) }
    {
        if self.is_empty() {
            Err(RunFault::Empty)
        } else {
            Ok(self)
        }
    }

    /// Its record with this index, where it lies.
    pub fn record(&self, index: usize) -> Option<RecordView<'a>>
        ensures { MatchOption result (size self.now ≤ index) (λ v. ViewAt (bytes_in self.now) index v) }
    {
        let bytes = self.pieces().get(index)?;
        Some(RecordView { bytes, index })
    }

    /// Whether two runs say the same. One content has one run, so they do exactly where their bytes are the same.
    pub fn same_content(&self, other: &Run<'_>) -> bool
        ensures { Decides result (content_of_run self.now ≡ content_of_run other.now) }
    {
        self.bytes == other.bytes
    }

    // The bytes of its records.
    #[tactic(auto, using(crate::proofs::Pieces::piece_in))]
    pub(crate) fn pieces(&self) -> &'a [[u8; 48]]
        ensures len { length result.now ≡ size self.now }
        ensures each { (k : ℕ) (d : List ℕ) → k < length result.now → slice_index_or result.now k d ≡ piece (bytes_in self.now) k }
    {
        let (pieces, _) = self.bytes.as_chunks();
        pieces
    }

    // Its record with this index, which it has. Inlined, since most who ask go by a part of it.
    #[inline(always)]
    #[tactic(auto, unfolding(layout::specs::Pieces::mutation_at))]
    pub(crate) fn at(&self, index: usize) -> Record
        requires { index < size self.now }
        ensures { says result ≡ mutation_at (bytes_in self.now) index }
    {
        decode_lawful(&self.pieces()[index])
    }
}
