//! The sessions that rows open to.
ghost use Rattle.std.specs.Prelude.{◌≡◌, Some, IfOk};
ghost use Rattle.std.specs.Option.{is_some};
ghost use Rattle.std.specs.FinMap as fin;
ghost use Rattle.apex_world.specs.Opened.{opened_sessions};
ghost use Rattle.row_key.specs.RowBytes.{FitRows};
ghost use Rattle.row_check.specs.RowSessions.{sessions_in, left_after, left_after_all};
ghost use Rattle.row_key.specs.Records.{record_in_entry};
ghost use Rattle.row_check.specs.SettledTags.{Tells};

use apex_base::Record;
use row_key::{RECORD, has_tag, known_bytes, record_in_entry};
use row_map::Rows;
use std::alloc::{AllocError, Global};

/// The sessions that the rows of tag 2 spell, in the order of their keys.
fn sessions_in(alloc: Global, rows: &Rows) -> Result<Vec<Record>, AllocError>
    ensures { IfOk result (λ found. (found.items ≡ sessions_in (fin.entries rows.now))
        × FitRows (fin.entries rows.now)) }
{
    let mut sessions = Vec::new(alloc);
    for (key, value) in rows.by_key() {
        if let Some(found) = record_in_entry(alloc, key.as_slice(), value.as_slice())? {
            sessions.push(found)?;
        }
    }
    Ok(sessions)
}

/// The sessions of the world that the rows open to, ascending by id.
pub fn opened_sessions(alloc: Global, rows: &Rows) -> Result<Vec<Record>, AllocError>
    ensures { IfOk result (λ found. found.items ≡ opened_sessions rows.now) }
{
    sessions_in(alloc, rows)
}

/// Whether the rows of tag 2 are those of the world that all rows open to. They are if as many sessions were opened, so
/// that no record is decoded again.
pub(crate) fn are_right_sessions(rows: &Rows, sessions: &[Record]) -> bool
    requires { sessions.now ≡ opened_sessions rows.now }
    ensures { Tells rows.now 2 result }
{
    are_enough(rows, sessions.len())
}

/// Whether there are no more rows of tag 2 than sessions.
fn are_enough(rows: &Rows, sessions: usize) -> bool
    ensures enough { result ≡ is_some (left_after_all (Some sessions) (fin.entries rows.now)) }
    ensures fits { FitRows (fin.entries rows.now) }
{
    let mut left = Some(sessions);
    for (key, value) in rows.by_key() {
        known_bytes(key.as_slice(), value.as_slice());
        left = left_after(left, key.as_slice());
    }
    left.is_some()
}

/// How many sessions are left after a row, if there were enough.
fn left_after(left: Option<usize>, key: &[u8]) -> Option<usize>
    ensures { result ≡ left_after left key.now }
{
    let left = left?;
    if has_tag(key, RECORD) {
        left.checked_sub(1)
    } else {
        Some(left)
    }
}
