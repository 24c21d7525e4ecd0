//! The words for states, cases, places and causes.
ghost use Rattle.std.specs.Prelude.{◌≡◌, ◌++◌, OnOk};
ghost use Rattle.apex_world.specs.Text.{state_text, rollback_text, case_text, cause_text, place_text};

use crate::words::{push_name, push_word_id};
use apex_base::{Case, Cause, Place, RollbackState, State};
use std::alloc::AllocError;

/// The word for a state of a session.
pub fn state_text(state: State) -> &'static [u8]
    ensures { result.now ≡ state_text state }
{
    match state {
        State::Verified => b"VERIFIED",
        State::Staged => b"STAGED",
        State::Activated => b"ACTIVATED",
        State::ActivationFailed => b"ACTIVATION_FAILED",
        State::Success => b"SUCCESS",
        State::RevertInProgress => b"REVERT_IN_PROGRESS",
        State::Reverted => b"REVERTED",
        State::Aborted => b"ABORTED",
    }
}

/// The word for a state of a rollback.
pub fn rollback_text(state: RollbackState) -> &'static [u8]
    ensures { result.now ≡ rollback_text state }
{
    match state {
        RollbackState::Enabling => b"ENABLING",
        RollbackState::Available => b"AVAILABLE",
        RollbackState::Committed => b"COMMITTED",
        RollbackState::Deleted => b"DELETED",
    }
}

/// A space, and the word for a place.
pub fn place_text(place: Place) -> &'static [u8]
    ensures { result.now ≡ place_text place }
{
    match place {
        Place::Data => b" data",
        Place::Pre => b" pre",
    }
}

/// The word for what is wrong with a part.
fn case_text(case: Case) -> &'static [u8]
    ensures { result.now ≡ case_text case }
{
    match case {
        Case::NotInImage => b"not-in-image",
        Case::BelowPreinstalled => b"below-preinstalled",
        Case::KeyDiffers => b"key-differs",
        Case::Unsound => b"unsound",
        Case::NoMount => b"no-mount",
    }
}

/// Why a boot ended a session.
#[tactic(auto, using(std::proofs::lemmas::Grind::common_steps), unfolding(apex_world::specs::Text::cause_text))]
pub fn push_cause(line: &mut Vec<u8>, cause: &Cause) -> Result<(), AllocError>
    ensures { OnOk result (line.new.items ≡ line.old.items ++ cause_text cause.now) }
{
    match cause {
        Cause::Reverted => line.extend_from_slice(b"reverted"),
        Cause::OtherBuild => line.extend_from_slice(b"other-build"),
        Cause::Superseded(id) => push_word_id(line, b"superseded ", *id),
        Cause::Part { name, case } => {
            line.extend_from_slice(b"part ")?;
            push_name(line, name)?;
            line.extend_from_slice(b" ")?;
            line.extend_from_slice(case_text(*case))
        }
    }
}
