//! A module's listing of digests: making it, and checking a module against it.
#![tactic(auto)]

mod checks;
mod digits;
mod known;
mod laws;
mod lines;
mod sealing;
#[cfg(test)]
mod tests;

pub use checks::{CheckWhy, check_listing};
pub use digits::digits_of;
pub use laws::sound_listing_is_the_listing;
pub use sealing::{listing, seal};
