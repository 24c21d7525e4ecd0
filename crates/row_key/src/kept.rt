//! Rows of what sessions keep: tag 7 for snapshots, and tag 8 for values before a rollback. A key is a session's id, a
//! name after its length, and the value's own key.
ghost use Rattle.std.specs.Prelude.{◌≡◌, [], IfOk};
ghost use Rattle.row_key.specs.Kept.{kept_text};

use apex_base::{Name, SessionId};
use session_record::push_name;
use std::alloc::{AllocError, Global};

/// The tag of the rows of snapshots.
pub const SNAPSHOT: u8 = 7;

/// The tag of the rows of values before a rollback.
pub const PRE_RESTORE: u8 = 8;

/// The front of the keys of what a session keeps of a name.
pub fn kept_front(alloc: Global, tag: u8, id: SessionId, name: &Name) -> Result<Vec<u8>, AllocError>
    ensures { IfOk result (λ front. front.items ≡ kept_text tag id name.now []) }
{
    let mut front = Vec::with_capacity(alloc, 6)?;
    front.push(tag)?;
    front.extend_from_slice(&id.0.to_be_bytes())?;
    push_name(name, &mut front)?;
    Ok(front)
}
