//! A fault in words.

ghost use Rattle.std.specs.Prelude.{Some};
ghost use Rattle.wording.specs.Words.{part_text, refused_text, fault_text};

use crate::words::Words;
use layout::{Part, RecordFault, Refusal};
use std::fmt;

impl fmt::Display for Words<Part> {
    ghost output = { λ w. Some (part_text w.0) };

    fn fmt<W: fmt::Write>(&self, f: &mut fmt::Formatter<W>) -> fmt::Result {
        f.write_str(match self.0 {
            Part::Kind => "kind",
            Part::Field => "field",
            Part::Section => "section",
            Part::FirstPlot => "first plot",
            Part::LastPlot => "last plot",
            Part::Stamp => "stamp",
            Part::Day => "day",
            Part::ValueLength => "value length",
            Part::Value => "value",
        })
    }
}

// How a refusal begins.
impl fmt::Display for Words<Refusal> {
    ghost output = { λ w. Some (refused_text w.0) };

    fn fmt<W: fmt::Write>(&self, f: &mut fmt::Formatter<W>) -> fmt::Result {
        write!(f, "refused, {}", u8::from(self.0.number))
    }
}

impl fmt::Display for Words<RecordFault> {
    ghost output = { λ w. Some (fault_text w.0) };

    fn fmt<W: fmt::Write>(&self, f: &mut fmt::Formatter<W>) -> fmt::Result {
        let refusal = self.0.refusal();
        let refused = Words(refusal);
        match self.0 {
            RecordFault::Length => write!(f, "{refused} length: not 48 bytes"),
            RecordFault::Malformed(part) => {
                write!(
                    f,
                    "{refused} malformed at byte {}: {}",
                    refusal.byte,
                    Words(part)
                )
            }
        }
    }
}
