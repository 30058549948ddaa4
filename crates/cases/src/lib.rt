//! Examples that are run: records at both ends of their ranges, records that are reconciled, and runs.
#![tactic(auto)]

#[cfg(test)]
mod decoding;
#[cfg(test)]
mod reconciling;
#[cfg(test)]
mod running;
