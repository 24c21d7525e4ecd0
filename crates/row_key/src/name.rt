//! Rows of names: tag 3 for the targets that they hold, and tag 4 for those that they held before. A key is the name.
ghost use Rattle.std.specs.Prelude.{◌≡◌, ◌∷◌, [], IfOk};
ghost use Rattle.apex_base.specs.Keys.{BackupOf, key_text};
ghost use Rattle.apex_base.specs.Spelling.{target_text};
ghost use Rattle.session_record.specs.Room.{HasPartNumber};

use apex_base::{Bytes, Listed, Name, Target};
use session_record::push_target;
use std::alloc::{AllocError, Global};

/// The tag of the rows of the targets that names hold.
pub const ACTIVE: u8 = 3;

/// The tag of the rows of the targets that names held before.
pub const BACKUP: u8 = 4;

/// The key of a row of a name.
pub fn name_key(alloc: Global, tag: u8, name: &Name) -> Result<Vec<u8>, AllocError>
    ensures { IfOk result (λ key. key.items ≡ tag ∷ name.now) }
{
    let mut key = Vec::with_capacity(alloc, 1)?;
    key.push(tag)?;
    key.extend_from_slice(name.as_bytes())?;
    Ok(key)
}

/// The key of the row of what a name held before.
pub fn backup_key(alloc: Global, name: &Name) -> Result<Listed<u8>, AllocError>
    ensures { IfOk result (λ key. key ≡ key_text (BackupOf name.now)) }
{
    Ok(Listed::of(name_key(alloc, BACKUP, name)?))
}

/// The value of a row of a name.
#[tactic(auto, using(session_record::proofs::Pushes::pushed_all))]
pub fn target_row(alloc: Global, target: Target) -> Result<Bytes, AllocError>
    requires { HasPartNumber target }
    ensures { IfOk result (λ value. value ≡ target_text target []) }
{
    let mut value = Vec::with_capacity(alloc, 14)?;
    push_target(&target, &mut value)?;
    Ok(Bytes::of(value))
}
