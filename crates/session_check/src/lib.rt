//! Whether sessions are lawful, without comparing each with each: `docs/rows.md`, "Lawful worlds".
#![tactic(auto)]

mod before;
mod check;
mod distinct;
mod marks;
mod own;
mod search;
#[cfg(test)]
mod tests;
mod undone;

pub use check::are_lawful;
