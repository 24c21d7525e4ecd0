//! Scripts: what becomes of a device over several boots.
use crate::{BootOrder, Call, SegmentList};
use apex_base::{Listed, Name, Place, Scale, Version};

/// Calls, seen as a list.
pub type CallList = Listed<Call>;

/// The calls of one lane within a segment. Lane 0 is for calls outside lane blocks.
#[derive(Drop)]
pub struct Lane {
    pub number: u32,
    pub calls: CallList,
}

/// Lanes, seen as a list.
pub type LaneList = Listed<Lane>;

/// Arms the device: the write that is stopped, and what becomes of the bytes in flight. No line makes one yet.
#[derive(Clone, Copy)]
pub struct Cut {
    pub writes: u32,
    pub pick: u32,
}

/// Lanes that may run at the same time, after the cut.
#[derive(Drop)]
pub struct Segment {
    pub cut: Option<Cut>,
    pub lanes: LaneList,
}

/// Modules, each by its place, name and version; seen as a list. No line adds one yet.
pub type MountList = Listed<(Place, Name, Version)>;

/// A boot and what follows it until the next. `mounts` are the modules that don't mount; the cut comes before
/// the boot.
#[derive(Drop)]
pub struct ScriptBoot {
    pub order: BootOrder,
    pub mounts: MountList,
    pub workers: u32,
    pub cut: Option<Cut>,
    pub segments: SegmentList,
}

/// Boots, seen as a list.
pub type BootList = Listed<ScriptBoot>;

/// A script.
#[derive(Drop)]
pub struct Script {
    pub scale: Scale,
    pub boots: BootList,
}
