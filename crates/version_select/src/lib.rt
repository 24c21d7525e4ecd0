//! Which module of each name a boot takes: `docs/boot.md`, "Selection".
#![tactic(auto)]

mod candidate;
mod laws;
mod selection;
#[cfg(test)]
mod tests;

pub use apex_base::{Pick, Place};
pub use candidate::{Candidate, better};
pub use laws::{nothing_usable_nothing_chosen, picks_are_one};
pub use selection::select;
