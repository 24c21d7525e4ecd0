//! Which module a target is: `docs/sessions.md`.
ghost use Rattle.std.specs.Prelude.{◌≡◌};
ghost use Rattle.apex_base.specs.Held.{is_module};

use crate::{SessionId, Target};

/// Whether a target is the module that this part of a session submitted.
pub fn is_module(session: SessionId, part: u32, target: Target) -> bool
    ensures { result ≡ is_module session part target }
{
    match target {
        Target::Preinstalled => false,
        Target::Module {
            session: s,
            part: p,
            version: _,
        } => s.0 == session.0 && p == part,
    }
}
