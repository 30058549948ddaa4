//! Runs: bytes that are records in order, checked once and then read in place.
#![tactic(auto)]

mod check;
mod fault;
mod key;
mod lookup;
mod pair;
mod refusal;
mod run;
mod view;

pub use fault::{Disorder, FaultAt, RunFault};
pub use run::Run;
pub use view::RecordView;
