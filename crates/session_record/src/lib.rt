//! A session's record as bytes: `docs/rows.md`, "A record".
#![tactic(auto)]

mod decode;
mod encode;
mod fields;
mod front;
mod laws;
mod length;
mod reading;
#[cfg(test)]
mod tests;
mod units;
mod writing;

pub use apex_base::{Move, Record, State, moved};
pub use decode::decode_record;
pub use encode::{encode_record, push_target};
pub use fields::target_at;
pub use laws::spelling_undoes_reading;
pub use reading::moment_at;
pub use writing::push_name;
