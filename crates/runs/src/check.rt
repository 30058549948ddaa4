//! The check of a run, in one pass.

ghost use Rattle.std.specs.Prelude.{◌≡◌, ℕ, ◌-◌, ◌/◌, ◌<◌, ◌≤◌, length, IfOk, Some, None, MatchResult};
ghost use Rattle.std.specs.Result.{result_err};
ghost use Rattle.records.specs.Meaning.{says};
ghost use Rattle.layout.specs.Layout.{row_at, mutation_in, fault_of};
ghost use Rattle.layout.specs.Pieces.{mutation_at};
ghost use Rattle.canon.specs.Check.{Passed};
ghost use Rattle.runs.specs.Records.{records_in};
ghost use Rattle.runs.specs.Faults.{clash_of, run_fault, order_fault};
ghost use Rattle.runs.specs.Opened.{bytes_in, size};
ghost use Rattle.runs.specs.Check.{PassedTo};

use crate::fault::{Disorder, FaultAt, RunFault};
use crate::pair::{apart, ascends, passed};
use crate::run::Run;
use layout::decode;
use records::Record;

// What is wrong with a record that comes after those before it and still may not follow them.
fn clash(record: &Record) -> Disorder
    ensures { result ≡ clash_of (says «record».now) }
{
    match record {
        Record::Deletion(_) => Disorder::Spans,
        Record::Cell(_) => Disorder::Covered,
    }
}

impl Run<'_> {
    // The index, from `from` on, of the first of its records that may still cover `record` or what follows it; how many it
    // has where there is none.
    fn advance(&self, from: usize, record: &Record) -> usize
        requires { from ≤ size self.now }
        ensures rises { (from ≤ result) × (result ≤ size self.now) }
        ensures behind { (k : ℕ) → from ≤ k → k < result → Passed (mutation_at (bytes_in self.now) k) (says «record».now) }
        ensures stops { result < size self.now → Passed (mutation_at (bytes_in self.now) result) (says «record».now) → ⊥ }
    {
        (from..self.len())
            .find(|i| !passed(&self.at(*i), record))
            .unwrap_or(self.len())
    }

    // The index of the first of its records that may still cover what follows `record`, or why `record` may not follow this
    // run. None before `over` can cover what follows the last.
    fn follow(&self, over: usize, record: &Record) -> Result<usize, RunFault>
        requires { PassedTo (bytes_in self.now) over (mutation_at (bytes_in self.now) (size self.now - 1)) }
        ensures fault { result_err result ≡ order_fault (records_in (bytes_in self.now)) (says «record».now) }
        ensures next { IfOk result (λ i. PassedTo (bytes_in self.now) i (says «record».now)) }
    {
        let index = self.len();
        let over = self.advance(over, record);
        // Nothing to compare with is no fault, so no `?` leads out here.
        let Some(end) = index.checked_sub(1) else {
            return Ok(over);
        };
        let last = self.at(end);
        let why = if !ascends(&last, record) {
            Disorder::Unsorted
        } else if apart(&last, record) && (over == index || apart(&self.at(over), record)) {
            return Ok(over);
        } else {
            clash(record)
        };
        Err(RunFault::Order { index, why })
    }
}

// The record that 48 bytes write, or their fault with their index.
fn decode_at(index: usize, piece: &[u8; 48]) -> Result<Record, FaultAt>
    ensures { MatchResult result (λ x. (fault_of piece.now ≡ None) × (says x ≡ mutation_in (row_at piece.now))) (λ e. (e.index ≡ index) × (fault_of piece.now ≡ Some e.fault)) }
{
    decode(piece).map_err(|fault| FaultAt { index, fault })
}

// Whether bytes are a run, or why they are none.
pub(crate) fn check(bytes: &[u8]) -> Result<(), RunFault>
    ensures { result_err result ≡ run_fault bytes.now }
{
    let (pieces, rest) = bytes.as_chunks::<48>();
    // A guard: with nothing to hand on, `then_some` and `ok_or` are no plainer.
    if !rest.is_empty() {
        return Err(RunFault::Length);
    }
    let mut over = 0;
    for (index, piece) in pieces.iter().enumerate() {
        let record = decode_at(index, piece)?;
        let before = Run {
            bytes: &bytes[..48 * index],
        };
        over = before.follow(over, &record)?;
    }
    Ok(())
}
