//! A run in words.

ghost use Rattle.std.specs.Prelude.{◌≡◌, IfOk, string_bytes, Some};
ghost use Rattle.wording.specs.RunWords.{disorder_text, run_fault_text, run_line};

use crate::words::Words;
use runs::{Disorder, Run, RunFault};
use std::alloc::{AllocError, Global};
use std::fmt;

impl fmt::Display for Words<Disorder> {
    ghost output = { λ w. Some (disorder_text w.0) };

    fn fmt<W: fmt::Write>(&self, f: &mut fmt::Formatter<W>) -> fmt::Result {
        f.write_str(match self.0 {
            Disorder::Unsorted => {
                "it does not come after the one before it by section, deletion before cell, plot and field"
            }
            Disorder::Spans => {
                "it overlaps a deletion before it, or goes on where one of the same stamp and day ends"
            }
            Disorder::Covered => "a deletion before it covers it",
        })
    }
}

impl fmt::Display for Words<RunFault> {
    ghost output = { λ w. Some (run_fault_text w.0) };

    fn fmt<W: fmt::Write>(&self, f: &mut fmt::Formatter<W>) -> fmt::Result {
        let refused = Words(self.0.refusal());
        match self.0 {
            RunFault::Length => {
                write!(f, "no run: {refused} length: not a multiple of 48 bytes")
            }
            RunFault::Record(at) => write!(f, "no run, record {}: {}", at.index, Words(at.fault)),
            RunFault::Order { index, why } => {
                write!(f, "no run, record {index}: {refused} order: {}", Words(why))
            }
            RunFault::Empty => write!(f, "no run: {refused} empty: no records"),
        }
    }
}

/// Whether bytes are a run: how many records it has, or why they are none.
pub fn run_line(heap: Global, opened: Result<Run<'_>, RunFault>) -> Result<String, AllocError>
    ensures { IfOk result (λ s. string_bytes s ≡ run_line opened.entry) }
{
    match opened {
        Ok(run) => format!(in heap; "a run, records: {}", run.len()),
        Err(fault) => Words(fault).to_string(heap),
    }
}
