//! What judges a boot: whether a device can be booted from rows, which may be anybody's, and what the boot answers and makes
//! of them.
#![tactic(auto)]

mod aging;
mod becoming;
mod booted;
mod choosing;
mod key_files;
mod opening;
mod windows;

pub use booted::{JudgedBoot, judge_boot};
pub use opening::{BootWhy, open_bootable};
