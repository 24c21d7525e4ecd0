//! What each session has to say by itself.
ghost use Rattle.std.specs.Prelude.{◌≡◌, ◌+◌, ◌<◌, ◌≤◌, ◌^◌, not, length};
ghost use Rattle.std.specs.List.{list_all};
ghost use Rattle.std.specs.Str.{bytes_eq};
ghost use Rattle.apex_base.specs.Commit.{target_version, is_caller_id};
ghost use Rattle.apex_base.specs.Members.{each_pair};
ghost use Rattle.apex_base.specs.Rollbacks.{is_enabling, is_committed};
ghost use Rattle.apex_world.specs.Decided.{is_same_version, is_own, are_own, has_count, has_parts, has_activation};
ghost use Rattle.apex_world.specs.Decided.{has_its_cause, has_rollback, has_caller_ids};
ghost use Rattle.apex_world.specs.Lawful.{never_activated, has_cause};
ghost use Rattle.session_check.specs.Sound.{is_sound};

use apex_base::{Part, Record, RollbackState, SessionId, State, Target, Version};

/// Whether each session is sound by itself.
pub(crate) fn are_sound(sessions: &[Record], boots: u32) -> bool
    ensures { result ≡ list_all (is_sound boots) sessions.now }
{
    sessions.iter().all(|r| is_sound(r, boots))
}

fn is_sound(r: &Record, boots: u32) -> bool
    ensures { result ≡ is_sound boots r.now }
{
    has_parts(r)
        && has_activation(r, boots)
        && has_its_cause(r)
        && has_rollback(r)
        && has_caller_ids(r)
}

// Parts

fn has_parts(r: &Record) -> bool
    ensures { result ≡ has_parts r.now }
{
    let parts = r.parts.as_slice();
    has_count(r)
        && parts.len() <= 16
        && have_own_names(parts)
        && (r.kind.undoes() || are_own(r.id, 0, parts))
        && have_versions(parts)
}

fn has_count(r: &Record) -> bool
    ensures { result ≡ has_count r.now }
{
    let children = r.children.as_slice().len();
    let parts = r.parts.as_slice().len();
    children == 0 && parts == 1 || children == parts
}

fn have_own_names(parts: &[Part]) -> bool
    ensures { result ≡ each_pair (λ p q. not (bytes_eq p.name q.name)) parts.now }
{
    match parts {
        [] => true,
        [p, rest @ ..] => is_name_new(p, rest) && have_own_names(rest),
    }
}

fn is_name_new(p: &Part, others: &[Part]) -> bool
    ensures { result ≡ list_all (λ q. not (bytes_eq p.now.name q.name)) others.now }
{
    others.iter().all(|q| !p.name.is_same(&q.name))
}

fn are_own(id: SessionId, first: u32, parts: &[Part]) -> bool
    requires { first + length parts.now < 2 ^ 32 }
    ensures { result ≡ are_own id first parts.now }
{
    match parts {
        [] => true,
        [p, rest @ ..] => is_own(id, first, p.target) && are_own(id, first + 1, rest),
    }
}

fn is_own(id: SessionId, number: u32, target: Target) -> bool
    ensures { result ≡ is_own id number target }
{
    match target {
        Target::Preinstalled => false,
        Target::Module { session, part, .. } => session.0 == id.0 && part == number,
    }
}

fn have_versions(parts: &[Part]) -> bool
    ensures { result ≡ list_all (λ p. is_same_version p.version (target_version p.target)) parts.now }
{
    parts
        .iter()
        .all(|p| is_same_version(p.version, target_version(p.target)))
}

/// The version of a target's module.
pub(crate) fn target_version(target: Target) -> Option<Version>
    ensures { result ≡ target_version target }
{
    match target {
        Target::Preinstalled => None,
        Target::Module { version, .. } => Some(version),
    }
}

/// Whether both are one version, or neither is any.
pub(crate) fn is_same_version(a: Option<Version>, b: Option<Version>) -> bool
    ensures { result ≡ is_same_version a b }
{
    match (a, b) {
        (None, None) => true,
        (Some(a), Some(b)) => a.number() == b.number(),
        _ => false,
    }
}

// Activation boots

fn has_activation(r: &Record, boots: u32) -> bool
    ensures { result ≡ has_activation boots r.now }
{
    never_activated(r.state) == (r.activation == 0) && r.activation <= boots
}

fn never_activated(state: State) -> bool
    ensures { result ≡ never_activated state }
{
    matches!(
        state,
        State::Verified | State::Staged | State::ActivationFailed | State::Aborted
    )
}

// Causes

fn has_its_cause(r: &Record) -> bool
    ensures { result ≡ has_its_cause r.now }
{
    has_cause(r.state) == r.cause.is_some()
}

fn has_cause(state: State) -> bool
    ensures { result ≡ has_cause state }
{
    matches!(state, State::ActivationFailed | State::Reverted)
}

// Rollbacks

fn has_rollback(r: &Record) -> bool
    ensures { result ≡ has_rollback r.now }
{
    let none_yet = r.moment.number() == 0;
    let enabling = is_enabling(r.rollback);
    let ready = RollbackState::is_available(r.rollback) || is_committed(r.rollback);
    r.kind.rolls_back() == r.rollback.is_some()
        && (!enabling || r.state.is_unfinished() && none_yet)
        && (!ready || r.state.is_success())
        && (r.rollback.is_some() || none_yet)
}

fn is_enabling(rollback: Option<RollbackState>) -> bool
    ensures { result ≡ is_enabling rollback }
{
    matches!(rollback, Some(RollbackState::Enabling))
}

/// Whether the rollback was committed.
pub(crate) fn is_committed(rollback: Option<RollbackState>) -> bool
    ensures { result ≡ is_committed rollback }
{
    matches!(rollback, Some(RollbackState::Committed))
}

// Ids

fn has_caller_ids(r: &Record) -> bool
    ensures { result ≡ has_caller_ids r.now }
{
    r.kind.undoes() || r.id.is_caller_id() && are_caller_ids(r.children.as_slice())
}

fn are_caller_ids(ids: &[SessionId]) -> bool
    ensures { result ≡ list_all is_caller_id ids.now }
{
    ids.iter().all(|id| id.is_caller_id())
}
