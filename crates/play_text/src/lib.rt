//! The text of a run: the lines of each turn, and the last line. Which turns there are is the business of the player.
#![tactic(auto)]

mod faults;
mod lines;
mod mark;
mod put;
mod refusal;
mod reply;
mod states;
mod words;

pub use put::{PutFailed, TurnText};

#[cfg(test)]
mod tests;
