//! What a run's fault is called.

ghost use Rattle.std.specs.Prelude.{◌≡◌};
ghost use Rattle.layout.specs.declared.fault.Layer.TheVariants.{Run};
ghost use Rattle.runs.specs.declared.fault.RunFault.TheVariants.{Record};
ghost use Rattle.runs.specs.Faults.{refusal_of_run};

use crate::fault::{FaultAt, RunFault};
use layout::{Layer, Reason, Refusal};

impl From<FaultAt> for RunFault {
    ghost from_gives = { λ e r. r ≡ Record e };

    fn from(e: FaultAt) -> RunFault {
        RunFault::Record(e)
    }
}

// A refusal by a run: that of the record with this index, or of none.
fn refused(number: Reason, index: usize) -> Refusal
    ensures { result ≡ record { number = number; layer = Run; index = index; byte = 0 } }
{
    Refusal {
        number,
        layer: Layer::Run,
        index,
        byte: 0,
    }
}

impl RunFault {
    /// Its number, layer, index and byte.
    pub fn refusal(&self) -> Refusal
        ensures { result ≡ refusal_of_run self.now }
    {
        match self {
            RunFault::Length => refused(Reason::Length, 0),
            RunFault::Record(at) => Refusal {
                index: at.index,
                ..at.fault.refusal()
            },
            RunFault::Order { index, .. } => refused(Reason::Order, *index),
            RunFault::Empty => refused(Reason::Empty, 0),
        }
    }
}
