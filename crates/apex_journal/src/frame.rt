//! What is written after a gate.
ghost use Rattle.std.specs.Prelude.{◌≡◌, ◌<◌, ◌≤◌, ◌+◌, ◌^◌, ◌∷◌, ◌++◌, [], length, drop, IfOk};
ghost use Rattle.apex_journal.specs.Records.{framed};

use std::alloc::{AllocError, Global};

/// How many bytes a record's length takes, which stands before it.
const ROOM: usize = 4;

/// A copy of a record, with room before it for its length, and after it for a closed gate.
pub(crate) fn with_room(alloc: Global, piece: &[u8]) -> Result<Vec<u8>, AllocError>
    requires { length piece.now < 2 ^ 32 }
    ensures record { IfOk result (λ bytes. drop 4 bytes.items ≡ piece.now) }
    ensures len { IfOk result (λ bytes. length bytes.items ≡ length piece.now + 4) }
{
    let mut bytes = Vec::with_capacity(alloc, piece.len() + ROOM + 1)?;
    bytes.extend_from_slice(&[0; ROOM])?;
    bytes.extend_from_slice(piece)?;
    Ok(bytes)
}

/// A record after its gate, and a closed gate after it. The record stands after room for its length.
pub(crate) fn frame(bytes: Vec<u8>) -> Result<Vec<u8>, AllocError>
    requires room { 4 ≤ length bytes.items }
    requires short { length bytes.items < 2 ^ 32 }
    ensures { IfOk result (λ whole. whole.items ≡ framed (drop 4 bytes.items) ++ 0 ∷ []) }
{
    let mut bytes = bytes;
    write_len(&mut bytes);
    bytes.push(0)?;
    Ok(bytes)
}

/// Writes the length of a record into the room before it.
fn write_len(bytes: &mut [u8])
    requires room { 4 ≤ length bytes.old }
    requires short { length bytes.old < 2 ^ 32 }
    ensures { bytes.new ≡ framed (drop 4 bytes.old) }
{
    let len = (bytes.len() - ROOM) as u32;
    bytes[..ROOM].copy_from_slice(&len.to_be_bytes());
}
