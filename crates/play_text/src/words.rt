//! Numbers, ids and names at the end of a line.
ghost use Rattle.std.specs.Prelude.{◌≡◌, ◌++◌, OnOk};
ghost use Rattle.std.specs.Fmt.{decimal};
ghost use Rattle.apex_world.specs.Text.{id_words};

use apex_base::{Name, SessionId};
use itoa::Buffer;
use std::alloc::AllocError;

/// A number in decimal.
pub fn push_number(line: &mut Vec<u8>, n: u64) -> Result<(), AllocError>
    ensures { OnOk result (line.new.items ≡ line.old.items ++ decimal n) }
{
    let mut buffer = Buffer::new();
    line.extend_from_slice(buffer.format(n).as_bytes())
}

/// An id in decimal.
pub fn push_id(line: &mut Vec<u8>, id: SessionId) -> Result<(), AllocError>
    ensures { OnOk result (line.new.items ≡ line.old.items ++ decimal id.0) }
{
    push_number(line, u64::from(id.0))?;
    Ok(())
}

/// A name as it is.
pub fn push_name(line: &mut Vec<u8>, name: &Name) -> Result<(), AllocError>
    ensures { OnOk result (line.new.items ≡ line.old.items ++ name.now) }
{
    line.extend_from_slice(name.as_bytes())
}

/// A word with its space, and an id.
pub fn push_word_id(line: &mut Vec<u8>, word: &[u8], id: SessionId) -> Result<(), AllocError>
    ensures { OnOk result (line.new.items ≡ line.old.items ++ (word.now ++ decimal id.0)) }
{
    line.extend_from_slice(word)?;
    push_id(line, id)?;
    Ok(())
}

/// A word with its space, and a number.
pub fn push_word_number(line: &mut Vec<u8>, word: &[u8], n: u64) -> Result<(), AllocError>
    ensures { OnOk result (line.new.items ≡ line.old.items ++ (word.now ++ decimal n)) }
{
    line.extend_from_slice(word)?;
    push_number(line, n)?;
    Ok(())
}

/// A word with its space, and a name.
pub fn push_word_name(line: &mut Vec<u8>, word: &[u8], name: &Name) -> Result<(), AllocError>
    ensures { OnOk result (line.new.items ≡ line.old.items ++ (word.now ++ name.now)) }
{
    line.extend_from_slice(word)?;
    push_name(line, name)?;
    Ok(())
}

/// Two words.
pub fn push_words(line: &mut Vec<u8>, word: &[u8], other: &[u8]) -> Result<(), AllocError>
    ensures { OnOk result (line.new.items ≡ line.old.items ++ (word.now ++ other.now)) }
{
    line.extend_from_slice(word)?;
    line.extend_from_slice(other)?;
    Ok(())
}

/// Each id after a space.
pub fn push_ids(line: &mut Vec<u8>, ids: &[SessionId]) -> Result<(), AllocError>
    ensures { OnOk result (line.new.items ≡ line.old.items ++ id_words ids.now) }
{
    for id in ids {
        push_word_id(line, b" ", *id)?;
    }
    Ok(())
}
