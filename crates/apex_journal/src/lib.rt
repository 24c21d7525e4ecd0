//! A row of records on a device, each of them there whole or not at all whenever the power goes.
#![tactic(auto)]

mod formatting;
mod frame;
mod gate;
mod half;
mod head;
mod journal;
mod laws;
mod opening;
mod pieces;
mod scale;
#[cfg(test)]
mod tests;
mod why;

pub use journal::Journal;
pub use laws::{damaged_has_no_records, records_are_one};
pub use why::{AppendWhy, JournalWhy};
