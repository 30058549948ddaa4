//! A sheet in words, for a person.
#![tactic(auto)]

mod fault;
mod line;
mod record;
mod run;
mod value;
mod words;

pub use line::{record_line, section_line};
pub use run::run_line;
