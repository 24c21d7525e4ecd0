//! The moves between the states of a session. The crates above decide which sessions move.
ghost use Rattle.std.specs.Prelude.{◌≡◌};
ghost use Rattle.apex_base.specs.Moves.{moved, rollback_after};

use crate::{RollbackState, State};

/// A move of a session: the table of `docs/sessions.md`, "Moves". No line makes a `Revert` yet.
#[derive(Clone, Copy, Debug, PartialEq, Eq)]
pub enum Move {
    Ready,
    Abort,
    Success,
    Revert,
    Activate,
    Fail,
    Undo,
}

/// The state that a move leads to, or None if the move can't begin in this state.
pub fn moved(state: State, by: Move) -> Option<State>
    ensures { result ≡ moved state by }
{
    match (by, state) {
        (Move::Ready, State::Verified | State::Staged) => Some(State::Staged),
        (Move::Abort, State::Verified | State::Staged) => Some(State::Aborted),
        (Move::Success, State::Activated | State::Success) => Some(State::Success),
        (Move::Revert, State::Activated) => Some(State::RevertInProgress),
        (Move::Activate, State::Staged) => Some(State::Activated),
        (Move::Fail, State::Verified | State::Staged) => Some(State::ActivationFailed),
        (Move::Undo, State::Activated | State::RevertInProgress) => Some(State::Reverted),
        _ => None,
    }
}

/// The state of a session's rollback after a move: an abort gives up one that isn't available yet.
pub fn rollback_after(by: Move, rollback: Option<RollbackState>) -> Option<RollbackState>
    ensures { result ≡ rollback_after by rollback }
{
    match (by, rollback) {
        (Move::Abort, Some(RollbackState::Enabling)) => Some(RollbackState::Deleted),
        _ => rollback,
    }
}
