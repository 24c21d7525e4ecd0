//! Sessions by their ids: `docs/sessions.md`.
ghost use Rattle.std.specs.Prelude.{◌≡◌, [], find};
ghost use Rattle.std.specs.Option.{option_copied};
ghost use Rattle.apex_base.specs.Members.{In};
ghost use Rattle.apex_base.specs.Sessions.{Ascend, has_id};

use apex_base::{Record, SessionId, place_of};

/// The session that has an id, or whose child has it, where no session has children.
pub fn session_with<'a>(sessions: &'a [Record], id: SessionId) -> Option<&'a Record>
    requires ascend { Ascend sessions.now }
    requires childless { (r : Record) → In r sessions.now → r.children ≡ [] }
    ensures { option_copied result ≡ find (has_id id) sessions.now }
{
    match place_of(sessions, id) {
        Ok(place) => Some(&sessions[place]),
        Err(_) => None,
    }
}
