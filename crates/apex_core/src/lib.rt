//! The manager of one thread: rows, and beside them what a call needs. A call is judged, then makes a batch, then changes
//! rows and tables.
#![tactic(auto)]

mod answer;
mod booting;
mod manager;

pub use answer::Answer;
pub use manager::Core;
