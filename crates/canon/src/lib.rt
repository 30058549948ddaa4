//! Which list of records is the run of a content.
#![tactic(auto)]

mod laws;

pub use laws::laws_hold;
