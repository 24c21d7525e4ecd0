//! Where the store keeps its bytes: what a device promises, a device in memory, and one over a file.
#![tactic(auto)]

mod arm;
mod content;
mod disk;
mod file;
mod memory;
mod meter;
mod pick;
mod step;
#[cfg(test)]
mod tests;

pub use arm::Arm;
pub use content::{Content, Range, Step};
pub use disk::{Device, Disk, Entry};
pub use file::{FileDisk, OpenWhy};
pub use memory::MemDisk;
pub use meter::Meter;
pub use step::write_and_sync;
