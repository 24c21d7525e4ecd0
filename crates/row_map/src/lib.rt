//! Rows in memory, and what batches make of them. Devices are the business of the crates above.
#![tactic(auto)]

mod room;
mod rows;

pub use rows::Rows;
