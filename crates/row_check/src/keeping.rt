//! Which sessions keep values, of which names.
ghost use Rattle.std.specs.Prelude.{◌≡◌};
ghost use Rattle.apex_base.specs.Sessions.{names, Ascend};
ghost use Rattle.apex_world.specs.Rows.{has_snapshot, has_pre_restore, may_happen};
ghost use Rattle.row_check.specs.KeptRows.{keeps};
ghost use Rattle.row_key.specs.Kept.{IsKeptTag};

use apex_base::{Record, RollbackState, SessionId, session_of};
use row_key::SNAPSHOT;

/// Whether a part of the session has the name.
pub(crate) fn has_name(r: &Record, name: &[u8]) -> bool
    ensures { result ≡ names name.now r.now }
{
    r.parts.as_slice().iter().any(|p| p.name.as_bytes() == name)
}

/// Whether a session keeps values under this tag.
pub(crate) fn keeps(sessions: &[Record], tag: u8, r: &Record) -> bool
    requires ascend { Ascend sessions.now }
    requires tag { IsKeptTag tag }
    ensures { result ≡ keeps sessions.now tag r.now }
{
    if tag == SNAPSHOT {
        has_snapshot(sessions, r)
    } else {
        has_pre_restore(r)
    }
}

fn has_snapshot(sessions: &[Record], r: &Record) -> bool
    requires { Ascend sessions.now }
    ensures { result ≡ has_snapshot sessions.now r.now }
{
    r.kind.rolls_back() && r.activation != 0 && may_happen(sessions, r.id, r.rollback)
}

fn has_pre_restore(r: &Record) -> bool
    ensures { result ≡ has_pre_restore r.now }
{
    r.kind.undoes() && r.state.is_undoable()
}

/// Whether a rollback may still happen.
fn may_happen(sessions: &[Record], id: SessionId, rollback: Option<RollbackState>) -> bool
    requires { Ascend sessions.now }
    ensures { result ≡ may_happen sessions.now id rollback }
{
    match rollback {
        None => false,
        Some(RollbackState::Enabling) => true,
        Some(RollbackState::Available) => true,
        Some(RollbackState::Committed) => match session_of(sessions, id.rollback_number()) {
            Some(r) => r.state.is_staged(),
            None => false,
        },
        Some(RollbackState::Deleted) => false,
    }
}
