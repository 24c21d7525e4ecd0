//! Rows of sessions: tag 2. A key is the session's id, and a value its record.
ghost use Rattle.std.specs.Prelude.{◌≡◌, IfOk};
ghost use Rattle.apex_base.specs.Keys.{RecordOf, key_text};
ghost use Rattle.row_key.specs.Records.{record_in_row, record_in_entry};
ghost use Rattle.row_key.specs.RowBytes.{FitRow};

use apex_base::{Listed, Record, SessionId, u32_at};
use session_record::decode_record;
use std::alloc::{AllocError, Global};

/// The tag of the rows of sessions.
pub const RECORD: u8 = 2;

/// The key of a session's record.
pub fn record_key(alloc: Global, id: SessionId) -> Result<Listed<u8>, AllocError>
    ensures { IfOk result (λ key. key ≡ key_text (RecordOf id)) }
{
    let mut bytes = Vec::with_capacity(alloc, 5)?;
    bytes.push(RECORD)?;
    bytes.extend_from_slice(&id.0.to_be_bytes())?;
    Ok(Listed::of(bytes))
}

/// The record that a row spells, if it is one of a session.
pub fn record_in_entry(
    alloc: Global,
    key: &[u8],
    value: &[u8],
) -> Result<Option<Record>, AllocError>
    ensures found { IfOk result (λ found. found ≡ record_in_entry key.now value.now) }
    ensures fits { FitRow (key.now, value.now) }
{
    match key {
        [tag, rest @ ..] if *tag == RECORD => record_in_row(alloc, rest, value),
        _ => Ok(None),
    }
}

/// The record that a row of a session spells, by its key without the tag.
pub fn record_in_row(alloc: Global, key: &[u8], value: &[u8]) -> Result<Option<Record>, AllocError>
    ensures { IfOk result (λ found. found ≡ record_in_row key.now value.now) }
{
    let Some((id, rest)) = u32_at(key) else {
        return Ok(None);
    };
    if !rest.is_empty() {
        return Ok(None);
    }
    decode_record(alloc, SessionId(id), value)
}
