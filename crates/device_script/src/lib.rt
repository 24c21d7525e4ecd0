//! Scripts, read from bytes: `docs/formats/script.md`.
#![tactic(auto)]

mod block;
#[cfg(test)]
mod block_tests;
mod draft;
mod fault;
mod image;
mod keyword;
mod labels;
mod line;
mod read;
mod split;
#[cfg(test)]
mod tests;
mod words;

pub use apex_world::{
    BootList, CallList, Cut, Lane, LaneList, MountList, Script, ScriptBoot, Segment, SegmentList,
};
pub use fault::{LineFault, ScriptWhy};
pub use read::read_script;
