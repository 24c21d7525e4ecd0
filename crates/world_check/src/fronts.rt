//! The boots of fronts, which are keys of data or of what sessions keep up to the end of their names.
ghost use Rattle.std.specs.Prelude.{◌≡◌};
ghost use Rattle.std.specs.Int.{w32};
ghost use Rattle.apex_base.specs.Reading.{number_at};
ghost use Rattle.apex_base.specs.Sessions.{Ascend};
ghost use Rattle.world_check.specs.DataRows.{activation_at, boot_of};

use apex_base::{Record, session_of, u32_at};
use row_key::DATA;

/// The boot just before which a name had its values: the one that activated the session that keeps them, or 0 for what
/// the name has now.
pub(crate) fn boot_of(sessions: &[Record], front: &[u8]) -> u32
    requires { Ascend sessions.now }
    ensures { result ≡ boot_of sessions.now front.now }
{
    match front {
        [] => 0,
        [tag, ..] if *tag == DATA => 0,
        [_, rest @ ..] => activation_at(sessions, rest),
    }
}

/// The boot that activated the session whose id comes first.
fn activation_at(sessions: &[Record], rest: &[u8]) -> u32
    requires { Ascend sessions.now }
    ensures { result ≡ activation_at sessions.now (number_at w32 rest.now) }
{
    let Some((id, _)) = u32_at(rest) else {
        return 0;
    };
    match session_of(sessions, u64::from(id)) {
        Some(r) => r.activation,
        None => 0,
    }
}
