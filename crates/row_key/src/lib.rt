//! The keys of rows, a file a tag: `docs/rows.md`, "The table".
#![tactic(auto)]

mod boots;
mod data;
mod file;
mod kept;
mod name;
mod record;
mod tag;
#[cfg(test)]
mod tests;
mod watch;

pub use boots::{BOOTS, boots_key};
pub use data::{DATA, front_of, is_data_row};
pub use file::{FILE, FileKey, file_at, file_front, file_key, path_in};
pub use kept::{PRE_RESTORE, SNAPSHOT, kept_front};
pub use name::{ACTIVE, BACKUP, backup_key, name_key, target_row};
pub use record::{RECORD, record_in_entry, record_in_row, record_key};
pub use tag::{has_tag, known_bytes};
pub use watch::WATCH;
