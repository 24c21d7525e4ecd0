//! Rows of names and of files, which depend on the sessions.
ghost use Rattle.std.specs.Prelude.{◌≡◌, ◌&&◌, not, IfOk};
ghost use Rattle.apex_world.specs.Opened.{opened_sessions};
ghost use Rattle.row_check.specs.SettledTags.{Tells, changes_tag};

use crate::files::are_files;
use apex_base::Record;
use package_store::{rows_are_those_shown, settle};
use row_codec::Row;
use row_key::{ACTIVE, BACKUP, FILE, has_tag};
use row_map::Rows;
use std::alloc::{AllocError, Global};

/// Which of the rows of names and of files are those of the world that all rows open to.
#[derive(Clone, Copy)]
pub struct SettledTags {
    /// Tag 3: the targets that names hold.
    pub active: bool,
    /// Tag 4: the targets that names held before.
    pub backup: bool,
    /// Tag 5: the files of modules that are kept.
    pub files: bool,
}

/// Judges the rows of names and of files, by the sessions that the rows open to (`opened_sessions`).
pub fn settled_tags(
    alloc: Global,
    rows: &Rows,
    sessions: &[Record],
) -> Result<SettledTags, AllocError>
    requires { sessions.now ≡ opened_sessions rows.now }
    ensures active { IfOk result (λ tags. Tells rows.now 3 tags.active) }
    ensures backup { IfOk result (λ tags. Tells rows.now 4 tags.backup) }
    ensures files { IfOk result (λ tags. Tells rows.now 5 tags.files) }
{
    rows_are_those_shown();
    let own = are_files(rows, sessions);
    let changes = settle(alloc, rows.by_key(), sessions)?;
    Ok(SettledTags {
        active: !changes_tag(&changes, ACTIVE),
        backup: !changes_tag(&changes, BACKUP),
        files: are_right_files(&changes, own),
    })
}

/// Whether no file's row has to go, since its module is kept, and each is one of a session's own module.
fn are_right_files(changes: &[Row], own: bool) -> bool
    ensures { result ≡ (not (changes_tag 5 changes.now) && own) }
{
    !changes_tag(changes, FILE) && own
}

/// Whether a change is one of a row of this tag.
fn changes_tag(changes: &[Row], tag: u8) -> bool
    ensures { result ≡ changes_tag tag changes.now }
{
    changes
        .iter()
        .any(|change| has_tag(change.key.as_slice(), tag))
}
