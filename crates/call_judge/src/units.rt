//! How many units sessions count: `docs/calls.md`, "Submit".
ghost use Rattle.std.specs.Prelude.{◌≡◌, ◌<◌, ◌≤◌, ◌^◌};
ghost use Rattle.apex_world.specs.Limits.{kind_units, units_of};

use apex_base::{Kind, Record};

/// The units of these sessions.
pub fn units_of(sessions: &[Record]) -> u32
    requires { units_of sessions.now < 2 ^ 32 }
    ensures { result ≡ units_of sessions.now }
{
    let mut units = 0;
    for r in sessions {
        units += kind_units(r.kind);
    }
    units
}

/// How many units a session of this kind counts.
pub(crate) fn kind_units(kind: Kind) -> u32
    ensures units { result ≡ kind_units kind }
    ensures few { result ≤ 2 }
{
    match kind {
        Kind::Plain => 1,
        Kind::WithRollback => 2,
        Kind::RollbackOf(_) => 0,
    }
}
