//! A module's manifest, the file `apex_manifest.json`: how it is read.
#![tactic(auto)]

mod laws;
mod manifest;
mod short;
#[cfg(test)]
mod tests;

pub use laws::manifests_are_in_range;
pub use manifest::{Manifest, ManifestWhy, read_manifest};
pub use short::{short_manifest, short_manifests_are_read};
