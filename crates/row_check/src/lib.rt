//! The world that rows open to, and the tags at which rows aren't those of that world: `docs/rows.md`, "Opening".
#![tactic(auto)]

mod alone;
mod boots;
mod eras;
mod files;
mod fronts;
mod keeping;
mod kept;
mod kept_laws;
#[cfg(test)]
mod kept_tests;
mod laws;
mod opened;
mod sessions;
mod settled;
mod tags;
#[cfg(test)]
mod tests;
mod watches;

pub use alone::is_right_alone;
pub use boots::{Boots, opened_boots};
pub use kept::{KeptTags, kept_tags};
pub use kept_laws::{kept_rows_are_those_of_eras, kept_rows_are_what_sessions_keep};
pub use laws::{files_are_those_of_kept_modules, names_have_what_sessions_give};
pub use opened::{BadRows, OpenedRows, open_rows};
pub use sessions::opened_sessions;
pub use settled::{SettledTags, settled_tags};
