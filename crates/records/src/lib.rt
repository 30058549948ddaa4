//! The records of the register, in range by their types, and what they say.
#![tactic(auto)]

mod cell;
mod cell_impl;
mod deletion;
mod deletion_impl;
mod laws;
mod place;
pub mod range;
mod record;
mod state;
mod tombstone;
mod value;
mod value_impl;

pub use cell::Cell;
pub use deletion::Deletion;
pub use laws::laws_hold;
pub use place::{Place, Plot};
pub use record::Record;
pub use state::State;
pub use tombstone::Tombstone;
pub use value::Value;
