//! The keys of modules that are kept, by rows.
ghost use Rattle.std.specs.Prelude.{◌≡◌, ◌<◌, IfOk, codes, option_map};
ghost use Rattle.apex_base.specs.Keys.{FileOf, key_text};
ghost use Rattle.world_laws.specs.BootByRows.{key_in};
ghost use Rattle.apex_world.specs.Soundness.{key_of, is_same_key_at};

use apex_base::{Bytes, FilePath, Module, SessionId};
use apex_world::{Package, SharedModule};
use row_key::file_key;
use row_map::Rows;
use std::alloc::{AllocError, Global};

/// Whether a kept module has the key of this one, or neither has any.
pub(crate) fn has_key_of(
    alloc: Global,
    rows: &Rows,
    session: SessionId,
    part: u32,
    m: &Package,
) -> Result<bool, AllocError>
    requires { part < 256 }
    ensures { IfOk result (λ same. same ≡ is_same_key_at (key_in rows.now session part) (key_of m.now.content)) }
{
    let key = key_file(alloc, session, part)?;
    let kept = with_key(alloc, rows.get(&key))?;
    Ok(kept.has_key_of(&m.content))
}

/// The key of the row of a kept module's key.
fn key_file(alloc: Global, session: SessionId, part: u32) -> Result<Vec<u8>, AllocError>
    requires { part < 256 }
    ensures { IfOk result (λ key. key.items ≡ key_text (FileOf session part (codes "apex_pubkey"))) }
{
    file_key(alloc, session, part, FilePath::key().as_bytes())
}

/// A module of this key and no other file, since modules compare their keys themselves. A kept key was a file of a
/// module, so it fits.
fn with_key(alloc: Global, key: Option<&[u8]>) -> Result<SharedModule, AllocError>
    ensures { IfOk result (λ kept. key_of kept ≡ option_map (λ bytes. bytes.now) key.entry) }
{
    let Some(bytes) = key else {
        return SharedModule::of(alloc, Module::new(alloc));
    };
    let mut files = Module::new(alloc);
    match files.put(FilePath::key(), Bytes::of(bytes.to_vec(alloc)?)) {
        Ok(()) => SharedModule::of(alloc, files),
        Err(_) => Err(AllocError),
    }
}
