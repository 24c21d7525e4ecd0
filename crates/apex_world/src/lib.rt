//! The world of the module manager: its calls, boots, scripts, turns and text. The types are here; what they mean is in
//! `specs/`, one file for each subject.
#![tactic(auto)]

mod calls;
mod modules;
mod script;
mod segments;
mod turns;
mod world;

pub use calls::{
    ActiveSet, BootOrder, BootReply, Call, CallRef, ChangeList, Changed, IdList, Image, NameList,
    Observer, ObserverKind, ObserverList, Reply,
};
pub use modules::{
    ModuleList, Package, PackageList, SharedModule, check_module, manifest_in,
    sound_modules_are_sealed,
};
pub use script::{BootList, CallList, Cut, Lane, LaneList, MountList, Script, ScriptBoot, Segment};
pub use segments::{Placed, SegmentForm, SegmentList, SingleSubmit};
pub use turns::{Fate, Shown, TurnRow, Turns};
pub use world::Submission;

#[cfg(test)]
mod tests;
