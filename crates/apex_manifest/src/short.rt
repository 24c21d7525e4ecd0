//! A manifest in its short text, as the maker of a module writes it.
ghost use Rattle.std.specs.Prelude.{◌≡◌, ℕ, List, IfOk, IsTrue, Ok};
ghost use Rattle.apex_base.specs.Ranges.{IsVersion};
ghost use Rattle.apex_base.specs.Text.{is_name};
ghost use Rattle.apex_manifest.specs.Manifest.{manifest_of, short_manifest};

use apex_base::{Name, Version};
use itoa::Buffer;
use std::alloc::{AllocError, Global};

/// The text `{"name":"NAME","version":VERSION}`. Fails only if memory runs out.
pub fn short_manifest(alloc: Global, name: &Name, version: Version) -> Result<Vec<u8>, AllocError>
    ensures text { IfOk result (λ text. text.items ≡ short_manifest name.now version) }
{
    let mut text = b"{\"name\":\"".to_vec(alloc)?;
    text.extend_from_slice(name.as_bytes())?;
    text.extend_from_slice(b"\",\"version\":".as_slice())?;
    let mut buffer = Buffer::new();
    text.extend_from_slice(buffer.format(version.number()).as_bytes())?;
    text.extend_from_slice(b"}".as_slice())?;
    Ok(text)
}

/// A law, for the proofs of callers: the short text of a name and a version is read as that name and that version.
pub fn short_manifests_are_read()
    ensures read { (name : List ℕ) (version : ℕ) → IsTrue (is_name name) → IsVersion version
        → manifest_of (short_manifest name version) ≡ Ok (record { name = name; version = version }) }
{}
