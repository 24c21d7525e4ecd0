//! Rows of files, by their keys alone: whether a session has the module as its own.
ghost use Rattle.std.specs.Prelude.{◌≡◌};
ghost use Rattle.std.specs.FinMap as fin;
ghost use Rattle.std.specs.List.{list_any};
ghost use Rattle.apex_base.specs.Held.{is_module};
ghost use Rattle.apex_base.specs.Sessions.{Ascend};
ghost use Rattle.row_check.specs.FileKeys.{is_file_key, is_file_at, are_files};
ghost use Rattle.row_check.specs.RightRows.{has_own};
ghost use Rattle.row_key.specs.RowBytes.{FitRows};

use apex_base::{FilePath, Part, Record, SessionId, is_module, session_of};
use row_key::{FILE, file_at, known_bytes};
use row_map::Rows;

/// Whether each row of tag 5 has the key of a file of a module that a session has as its own.
pub(crate) fn are_files(rows: &Rows, sessions: &[Record]) -> bool
    requires { Ascend sessions.now }
    ensures files { result ≡ are_files sessions.now (fin.entries rows.now) }
    ensures fits { FitRows (fin.entries rows.now) }
{
    let mut right = true;
    for (key, value) in rows.by_key() {
        known_bytes(key.as_slice(), value.as_slice());
        right = right && is_file_at(key.as_slice(), sessions);
    }
    right
}

/// Whether a row is of another tag, or has such a key.
fn is_file_at(key: &[u8], sessions: &[Record]) -> bool
    requires { Ascend sessions.now }
    ensures { result ≡ is_file_at sessions.now key.now }
{
    match key {
        [tag, rest @ ..] if *tag == FILE => is_file_key(rest, sessions),
        _ => true,
    }
}

fn is_file_key(key: &[u8], sessions: &[Record]) -> bool
    requires { Ascend sessions.now }
    ensures { result ≡ is_file_key sessions.now key.now }
{
    let Some(file) = file_at(key) else {
        return false;
    };
    FilePath::read(file.path).is_some() && has_own(sessions, file.session, file.part)
}

/// Whether a session has the module that it submitted as this part as the target of one of its parts.
fn has_own(sessions: &[Record], id: SessionId, part: u32) -> bool
    requires { Ascend sessions.now }
    ensures { result ≡ has_own sessions.now id part }
{
    match session_of(sessions, u64::from(id.0)) {
        Some(r) => is_own(r.parts.as_slice(), id, part),
        None => false,
    }
}

fn is_own(parts: &[Part], id: SessionId, part: u32) -> bool
    ensures { result ≡ list_any (λ p. is_module id part p.target) parts.now }
{
    parts.iter().any(|p| is_module(id, part, p.target))
}
