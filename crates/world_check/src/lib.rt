//! Whether the world that rows open to is lawful, in a time that grows with the rows: `docs/rows.md`, "Lawful worlds".
#![tactic(auto)]

mod check;
mod counts;
mod data;
mod fronts;
mod modules;
#[cfg(test)]
mod modules_tests;
#[cfg(test)]
mod tests;
mod watches;

pub use check::is_lawful;
