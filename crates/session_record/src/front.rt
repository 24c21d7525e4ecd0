//! The front of a record in bytes: all that stands before the parts.
ghost use Rattle.std.specs.Prelude.{◌≡◌};
ghost use Rattle.std.specs.Option.{option_map};
ghost use Rattle.session_record.specs.Front.{front_at};

use crate::fields::{cause_at, kind_at, rollback_at, state_at};
use crate::reading::{moment_at, print_at};
use apex_base::{Cause, Kind, Millis, Print, RollbackState, State, byte_at, u32_at};

/// What a record says before its parts, and how many parts and children follow.
#[derive(Clone, Copy)]
pub struct Front {
    pub state: State,
    pub kind: Kind,
    pub rollback: Option<RollbackState>,
    pub moment: Millis,
    pub activation: u32,
    pub print: Print,
    pub cause: Option<Cause>,
    pub parts: u8,
    pub children: u8,
}

#[tactic(auto, unfolding(crate::specs::Front::front_at))]
pub fn front_at(bytes: &[u8]) -> Option<(Front, &[u8])>
    ensures { option_map (λ found. (found.0, found.1.now)) result ≡ front_at bytes.now }
{
    let Some((state, rest)) = state_at(bytes) else {
        return None;
    };
    let Some((kind, rest)) = kind_at(rest) else {
        return None;
    };
    let Some((rollback, rest)) = rollback_at(rest) else {
        return None;
    };
    let Some((moment, rest)) = moment_at(rest) else {
        return None;
    };
    let Some((activation, rest)) = u32_at(rest) else {
        return None;
    };
    let Some((print, rest)) = print_at(rest) else {
        return None;
    };
    let Some((cause, rest)) = cause_at(rest) else {
        return None;
    };
    let Some((parts, rest)) = byte_at(rest) else {
        return None;
    };
    let Some((children, rest)) = byte_at(rest) else {
        return None;
    };
    let front = Front {
        state,
        kind,
        rollback,
        moment,
        activation,
        print,
        cause,
        parts,
        children,
    };
    Some((front, rest))
}
