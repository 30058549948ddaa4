//! Why bytes are no record, and what every layer's refusals are called.

ghost use Rattle.std.specs.Prelude.{◌≡◌};

use crate::part::Part;

/// Why bytes are no record.
#[derive(Clone, Copy, PartialEq, Eq, Debug)]
pub enum RecordFault {
    /// They are not 48.
    Length,
    /// The first row of the layout's table that they break.
    Malformed(Part),
}

/// What a refusal is for: the table of refusals, whole, each by its number.
#[derive(Clone, Copy, PartialEq, Eq, Debug)]
pub enum Reason {
    Length = 1,
    Malformed = 2,
    Order = 3,
    Empty = 4,
    Choice = 5,
    Outside = 6,
    TooOld = 7,
    Full = 8,
    Runs = 9,
    Area = 10,
    Scratch = 11,
    Few = 12,
    Answers = 13,
}

/// The layer that refuses, by its number in the table of refusals.
#[derive(Clone, Copy, PartialEq, Eq, Debug)]
pub enum Layer {
    Record = 1,
    Run = 2,
    Source = 3,
    Trio = 4,
}

/// A refusal as every layer tells it: its number in the table of refusals, the layer that found it, and the index of the
/// record and the byte in it, each 0 where none applies.
// Index and byte are numbers and no `Option`s: that is the form in which refusals are told.
#[derive(Clone, Copy, PartialEq, Eq, Debug)]
pub struct Refusal {
    pub number: Reason,
    pub layer: Layer,
    pub index: usize,
    pub byte: u8,
}

impl From<Reason> for u8 {
    ghost use Rattle.layout.specs.Faults.{number_of};

    ghost from_gives = { λ reason n. n ≡ number_of reason };

    /// Its number, for which `as` is the word.
    fn from(reason: Reason) -> u8 {
        reason as u8
    }
}

impl From<Layer> for u8 {
    ghost use Rattle.layout.specs.Faults.{number_of_layer};

    ghost from_gives = { λ layer n. n ≡ number_of_layer layer };

    /// Its number, for which `as` is the word.
    fn from(layer: Layer) -> u8 {
        layer as u8
    }
}

impl RecordFault {
    ghost use Rattle.layout.specs.Faults.{refusal_of};

    /// Its number, layer and byte.
    pub fn refusal(&self) -> Refusal
        ensures { result ≡ refusal_of self.now }
    {
        let (number, byte) = match self {
            RecordFault::Length => (Reason::Length, 0),
            RecordFault::Malformed(part) => (Reason::Malformed, *part as u8),
        };
        Refusal {
            number,
            layer: Layer::Record,
            index: 0,
            byte,
        }
    }
}
