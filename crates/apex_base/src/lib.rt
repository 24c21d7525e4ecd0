//! The plain types of the module manager, and the traits of the world outside it.
#![tactic(auto)]

mod boxed;
mod bytes;
mod cut;
mod fault;
mod laws;
mod listed;
mod memory;
mod module;
mod moves;
mod numbers;
mod outside;
mod padded;
mod path;
mod reading;
mod records;
mod refusal;
mod sessions;
mod shared;
mod targets;
#[cfg(test)]
mod tests;
mod text;
mod why;

pub use boxed::Boxed;
pub use bytes::Bytes;
pub use cut::{cut_first, position_in_word, position_of};
pub use fault::ModuleFault;
pub use laws::{no_bytes_spell_two_records, no_two_things_have_one_key, reading_undoes_spelling};
pub use listed::Listed;
pub use memory::{MemSink, MemSource};
pub use module::{Module, PutWhy};
pub use moves::{Move, moved, rollback_after};
pub use numbers::{Millis, Scale, SessionId, Version};
pub use outside::{Failed, Gate, Mounter, OpenGate, Sink, Source};
pub use path::FilePath;
pub use reading::{byte_at, bytes_at, short_at, u32_at, u64_at};
pub use records::{
    Case, Cause, ChildList, Kind, Level, Part, PartList, Pick, Place, Reason, Record,
    RollbackState, State, Target,
};
pub use refusal::Refusal;
pub use sessions::{part_of, place_of, session_of};
pub use shared::Shared;
pub use targets::is_module;
pub use text::{Name, Print};
pub use why::Why;
