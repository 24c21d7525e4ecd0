//! Reads a manifest. `apex_base` decides what a name and a version are, and `serde_json` what JSON is.
ghost use Rattle.std.specs.Prelude.{◌≡◌};
ghost use Rattle.serde_json.specs.View.{view};
ghost use Rattle.apex_base.specs.Answers.{Answers};
ghost use Rattle.apex_manifest.specs.Manifest.{manifest_of, manifest_from, name_in, version_in};

use apex_base::{ModuleFault, Name, Version, Why};
use serde_json::Value;
use std::alloc::Global;

/// What a manifest says: the module's name and its version.
#[derive(Clone, Copy)]
pub struct Manifest {
    pub name: Name,
    pub version: Version,
}

/// Why no manifest was read: the bytes aren't one, with the fault `NotJson`, `NoName`, `BadName`, `NoVersion` or
/// `BadVersion`; or memory ran out.
pub type ManifestWhy = Why<ModuleFault>;

/// The manifest that the bytes spell, or the first fault in the order of `ModuleFault`.
pub fn read_manifest(alloc: Global, bytes: &[u8]) -> Result<Manifest, ManifestWhy>
    ensures manifest { Answers result (manifest_of bytes.now) }
{
    match Value::from_slice(alloc, bytes) {
        Ok(value) => manifest_from(&value).map_err(ManifestWhy::Fault),
        Err(error) => {
            if error.is_memory() {
                return Err(ManifestWhy::NoMemory);
            }
            Err(ManifestWhy::Fault(ModuleFault::NotJson))
        }
    }
}

// The checks come in the order of `ModuleFault`.
fn manifest_from(value: &Value) -> Result<Manifest, ModuleFault>
    ensures said { result ≡ manifest_from (view value.now) }
{
    if !value.is_object() {
        return Err(ModuleFault::NotJson);
    }
    let name = value.get("name").ok_or(ModuleFault::NoName)?;
    let name = name_in(name).ok_or(ModuleFault::BadName)?;
    let version = value.get("version").ok_or(ModuleFault::NoVersion)?;
    let version = version_in(version).ok_or(ModuleFault::BadVersion)?;
    Ok(Manifest { name, version })
}

fn name_in(member: &Value) -> Option<Name>
    ensures name { result ≡ name_in (view member.now) }
{
    Name::read(member.as_str()?.as_bytes())
}

fn version_in(member: &Value) -> Option<Version>
    ensures version { result ≡ version_in (view member.now) }
{
    Version::new(member.as_u64()?)
}
