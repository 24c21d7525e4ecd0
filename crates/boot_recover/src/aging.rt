//! What a boot leaves of a session's rollback, once the session's state is settled: `docs/rollbacks.md`.
ghost use Rattle.std.specs.Prelude.{◌≡◌};
ghost use Rattle.apex_base.specs.Rollbacks.{not_enabled, no_longer, is_expired};
ghost use Rattle.apex_world.specs.Boot.{kept_in, aged};

use apex_base::{Millis, Record, RollbackState, State};

/// How long a rollback is available, in milliseconds: 14 days.
const LIFETIME: u64 = 1209600000;

/// A rollback isn't kept for a session that has failed, nor for longer than it lives.
pub(crate) fn age(r: &mut Record, time: Millis)
    ensures { r.new ≡ aged time r.old }
{
    r.rollback = if is_expired(time, r) {
        no_longer(r.rollback)
    } else {
        kept_in(r.state, r.rollback)
    };
}

fn is_expired(time: Millis, r: &Record) -> bool
    ensures { result ≡ is_expired time r.now }
{
    RollbackState::is_available(r.rollback) && r.moment.number() + LIFETIME <= time.number()
}

fn no_longer(rollback: Option<RollbackState>) -> Option<RollbackState>
    ensures { result ≡ no_longer rollback }
{
    match rollback {
        Some(RollbackState::Available) => Some(RollbackState::Deleted),
        _ => rollback,
    }
}

fn not_enabled(rollback: Option<RollbackState>) -> Option<RollbackState>
    ensures { result ≡ not_enabled rollback }
{
    match rollback {
        Some(RollbackState::Enabling) => Some(RollbackState::Deleted),
        _ => rollback,
    }
}

fn kept_in(state: State, rollback: Option<RollbackState>) -> Option<RollbackState>
    ensures { result ≡ kept_in state rollback }
{
    match state {
        State::ActivationFailed | State::Reverted => not_enabled(rollback),
        State::Verified
        | State::Staged
        | State::Activated
        | State::Success
        | State::RevertInProgress
        | State::Aborted => rollback,
    }
}
