//! What a file of records says: its records one by one, and what they reconcile to.
#![tactic(auto)]

mod count;
mod fold;
mod read;
mod section;
mod sheet;

pub use count::count_section;
pub use fold::{cell_at, cover_at};
pub use section::{PlotCount, SectionCount};
pub use sheet::Sheet;
