//! Rows of files: tag 5. A key is the id of the session that submitted the module, the number of its part there, and the
//! file's path.
ghost use Rattle.std.specs.Prelude.{◌≡◌, ◌<◌, [], IfOk, option_map};
ghost use Rattle.apex_base.specs.Keys.{file_front};
ghost use Rattle.row_key.specs.Files.{path_in, file_at};

use apex_base::SessionId;
use std::alloc::{AllocError, Global};

/// The tag of the rows of files.
pub const FILE: u8 = 5;

/// The key of a file.
pub fn file_key(
    alloc: Global,
    session: SessionId,
    part: u32,
    path: &[u8],
) -> Result<Vec<u8>, AllocError>
    requires { part < 256 }
    ensures { IfOk result (λ key. key.items ≡ file_front session part path.now) }
{
    let mut key = Vec::with_capacity(alloc, 6)?;
    key.extend_from_slice(&file_front(session, part))?;
    key.extend_from_slice(path)?;
    Ok(key)
}

/// The first bytes of the keys of the files of a module: the tag of files, the session that submitted it in four bytes,
/// and the number of its part there in one. What follows in a key is the file's path.
pub fn file_front(session: SessionId, part: u32) -> [u8; 6]
    requires { part < 256 }
    ensures { result ≡ file_front session part [] }
{
    let [a, b, c, d] = session.0.to_be_bytes();
    [FILE, a, b, c, d, part as u8]
}

/// The path in the key of a file, if it is one of the module that this part of a session submitted; None for each other
/// key.
pub fn path_in(session: SessionId, part: u32, key: &[u8]) -> Option<&[u8]>
    ensures { option_map (λ path. path.now) result ≡ path_in session part key.now }
{
    let Some((front, path)) = key.split_first_chunk::<6>() else {
        return None;
    };
    let [tag, a, b, c, d, number] = *front;
    if tag == FILE && [a, b, c, d] == session.0.to_be_bytes() && u32::from(number) == part {
        Some(path)
    } else {
        None
    }
}

/// What the key of a file says.
#[derive(Drop)]
pub struct FileKey<'a> {
    /// The session that submitted the module.
    pub session: SessionId,
    /// The number of its part there.
    pub part: u32,
    pub path: &'a [u8],
}

/// What the key of a file says, by the key without its tag; None where it is too short for a session and a part.
pub fn file_at(key: &[u8]) -> Option<FileKey<'_>>
    ensures { option_map (λ file. (file.session, file.part, file.path.now)) result ≡ file_at key.now }
{
    match key {
        [a, b, c, d, part, path @ ..] => Some(FileKey {
            session: SessionId(u32::from_be_bytes([*a, *b, *c, *d])),
            part: u32::from(*part),
            path,
        }),
        _ => None,
    }
}
