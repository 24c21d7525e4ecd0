//! The least tag at which rows are wrong: those of keys in turn, and then the tags that no key has.
ghost use Rattle.std.specs.Prelude.{◌≡◌, IfOk};
ghost use Rattle.std.specs.FinMap as fin;
ghost use Rattle.apex_world.specs.Opened.{opened_boots, opened_sessions};
ghost use Rattle.row_check.specs.SettledTags.{Tells};
ghost use Rattle.row_check.specs.WrongTags.{IsWrongTag, AreJudged, lesser, strange_in, strange_tag};

use crate::alone::is_right_alone;
use crate::kept::{KeptTags, kept_tags};
use crate::opened::OpenedRows;
use crate::sessions::are_right_sessions;
use crate::settled::{SettledTags, settled_tags};
use row_key::{ACTIVE, BACKUP, FILE, PRE_RESTORE, RECORD, SNAPSHOT};
use row_map::Rows;
use std::alloc::{AllocError, Global};

/// All tags of keys are below this number.
const TAGS: u8 = 10;

/// Whether rows are those of the world that all rows open to, for the tags whose rows depend on the sessions.
#[derive(Clone, Copy)]
struct Judged {
    /// Tag 2.
    sessions: bool,
    /// Tags 3, 4 and 5.
    settled: SettledTags,
    /// Tags 7 and 8.
    kept: KeptTags,
}

/// The least tag whose rows aren't those of the world that the rows open to, if there is one.
pub(crate) fn wrong_tag(
    alloc: Global,
    rows: &Rows,
    opened: &OpenedRows,
) -> Result<Option<u8>, AllocError>
    requires sessions { opened.now.sessions.items ≡ opened_sessions rows.now }
    requires boots { opened.now.boots.count ≡ (opened_boots rows.now).0 }
    ensures { IfOk result (IsWrongTag rows.now) }
{
    let sessions = opened.sessions.as_slice();
    let judged = Judged {
        sessions: are_right_sessions(rows, sessions),
        settled: settled_tags(alloc, rows, sessions)?,
        kept: kept_tags(alloc, rows, sessions, opened.boots.count)?,
    };
    for tag in 0..TAGS {
        if !is_right(alloc, tag, rows, judged)? {
            return Ok(Some(tag));
        }
    }
    Ok(strange_tag(rows))
}

/// Whether the rows of a tag are those of the world that the rows open to.
fn is_right(alloc: Global, tag: u8, rows: &Rows, judged: Judged) -> Result<bool, AllocError>
    requires { AreJudged rows.now judged }
    ensures { IfOk result (Tells rows.now tag) }
{
    match tag {
        RECORD => Ok(judged.sessions),
        ACTIVE => Ok(judged.settled.active),
        BACKUP => Ok(judged.settled.backup),
        FILE => Ok(judged.settled.files),
        SNAPSHOT => Ok(judged.kept.snapshots),
        PRE_RESTORE => Ok(judged.kept.pre_restores),
        _ => is_right_alone(alloc, tag, rows),
    }
}

/// The least tag of a row that is above the tags of keys.
fn strange_tag(rows: &Rows) -> Option<u8>
    ensures { result ≡ strange_tag (fin.entries rows.now) }
{
    let mut least = None;
    for (key, _) in rows.by_key() {
        least = lesser(least, strange_in(key.as_slice()));
    }
    least
}

/// What a row's key begins with, if that is above the tags of keys.
fn strange_in(key: &[u8]) -> Option<u8>
    ensures { result ≡ strange_in key.now }
{
    match key {
        [tag, ..] if *tag >= TAGS => Some(*tag),
        _ => None,
    }
}

/// The lesser of two tags, where both are there.
fn lesser(one: Option<u8>, other: Option<u8>) -> Option<u8>
    ensures { result ≡ lesser one other }
{
    match one {
        None => other,
        Some(a) => match other {
            Some(b) if b < a => other,
            _ => one,
        },
    }
}
