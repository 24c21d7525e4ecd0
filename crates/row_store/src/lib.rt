//! Rows on a device: a batch of them is there whole or not at all, whenever the power goes.
#![tactic(auto)]

mod laws;
mod opening;
mod reading;
mod store;
#[cfg(test)]
mod tests;
mod why;

pub use laws::{numbers_tell_rows, rows_are_one};
pub use row_map::Rows;
pub use store::RowStore;
pub use why::{CommitWhy, StoreWhy};
