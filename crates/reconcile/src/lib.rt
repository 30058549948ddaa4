//! Reconciling: which of two records wins, what a deletion covers, and the laws of putting records together.
#![tactic(auto)]

mod cell;
mod laws;
mod place;
mod tombstone;

pub use cell::greater;
pub use laws::laws_hold;
pub use place::{greater_cell, later_cover, uncovered_cell};
pub use tombstone::{covers, later};
