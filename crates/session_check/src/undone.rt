//! The sessions of rollbacks: which session each takes back, and that it is what that rollback makes.
ghost use Rattle.std.specs.Prelude.{◌≡◌, map};
ghost use Rattle.std.specs.Cmp.Lexicographic.{pointwise};
ghost use Rattle.std.specs.List.{list_all, list_any};
ghost use Rattle.std.specs.Option.{option_copied};
ghost use Rattle.apex_base.specs.Commit.{rollback_id, part_before, undoes};
ghost use Rattle.apex_base.specs.Rollbacks.{is_committed};
ghost use Rattle.apex_base.specs.Sessions.{session_of, Ascend};
ghost use Rattle.apex_world.specs.Decided.{implies, is_same_id, is_same_target, is_same_part, is_before_boot};
ghost use Rattle.apex_world.specs.Decided.{is_after_undone};
ghost use Rattle.apex_world.specs.Decided.{is_rollback_session, has_undone, undoes_it};
ghost use Rattle.apex_world.specs.Lawful.{is_verified};
ghost use Rattle.apex_base.specs.declared.records.Target.TheVariants.{Module};
ghost use Rattle.session_check.specs.declared.marks.Which.TheVariants.{Succeeded};
ghost use Rattle.session_check.specs.Before.{AreDated};
ghost use Rattle.session_check.specs.Marks.{AreMarks};

use crate::before::before;
use crate::marks::Mark;
use crate::own::{is_committed, is_same_version, target_version};
use apex_base::{Kind, Part, Record, SessionId, State, Target, session_of};

// When they were activated

/// Whether each session of a rollback was activated after the session that it takes back.
pub(crate) fn are_after_undone(sessions: &[Record]) -> bool
    requires { Ascend sessions.now }
    ensures { result ≡ list_all (λ r. is_after_undone sessions.now r.activation r.kind) sessions.now }
{
    for r in sessions {
        if !is_after_undone(sessions, r) {
            return false;
        }
    }
    true
}

fn is_after_undone(sessions: &[Record], r: &Record) -> bool
    requires { Ascend sessions.now }
    ensures { result ≡ is_after_undone sessions.now r.now.activation r.now.kind }
{
    match r.kind {
        Kind::Plain | Kind::WithRollback => true,
        Kind::RollbackOf(x) => {
            r.activation == 0 || is_before_boot(r.activation, session_of(sessions, u64::from(x.0)))
        }
    }
}

fn is_before_boot(boot: u32, r: Option<&Record>) -> bool
    ensures { result ≡ is_before_boot boot (option_copied r.entry) }
{
    match r {
        None => true,
        Some(r) => r.activation < boot,
    }
}

// What they are

/// Whether there is a session of a rollback.
pub(crate) fn any_undoes(sessions: &[Record]) -> bool
    ensures { result ≡ list_any (λ r. undoes r.kind) sessions.now }
{
    sessions.iter().any(|r| r.kind.undoes())
}

/// Whether each session of a rollback is what the rollback of its session makes, by the marks of those that succeeded.
pub(crate) fn have_undone(sessions: &[Record], marks: &[Mark]) -> bool
    requires dated { AreDated sessions.now }
    requires marks { AreMarks Succeeded sessions.now marks.now }
    ensures { result ≡ list_all (λ r. has_undone sessions.now r r.kind) sessions.now }
{
    for r in sessions {
        if !has_undone(sessions, marks, r) {
            return false;
        }
    }
    true
}

fn has_undone(sessions: &[Record], marks: &[Mark], r: &Record) -> bool
    requires dated { AreDated sessions.now }
    requires marks { AreMarks Succeeded sessions.now marks.now }
    ensures { result ≡ has_undone sessions.now r.now r.now.kind }
{
    match r.kind {
        Kind::Plain | Kind::WithRollback => true,
        Kind::RollbackOf(x) => {
            is_rollback_session(sessions, marks, r, session_of(sessions, u64::from(x.0)))
        }
    }
}

fn is_rollback_session(sessions: &[Record], marks: &[Mark], r: &Record, x: Option<&Record>) -> bool
    requires dated { AreDated sessions.now }
    requires marks { AreMarks Succeeded sessions.now marks.now }
    ensures { result ≡ is_rollback_session sessions.now r.now (option_copied x.entry) }
{
    match x {
        None => false,
        Some(x) => {
            is_committed(x.rollback)
                && !is_verified(r.state)
                && is_rollback_id(r.id, x.id)
                && are_rollback_ids(r.children.as_slice(), x.children.as_slice())
                && are_before(sessions, marks, x, r.parts.as_slice(), x.parts.as_slice())
        }
    }
}

fn is_verified(state: State) -> bool
    ensures { result ≡ is_verified state }
{
    matches!(state, State::Verified)
}

fn is_rollback_id(id: SessionId, x: SessionId) -> bool
    ensures { result ≡ is_same_id id (rollback_id x) }
{
    u64::from(id.0) == x.rollback_number()
}

fn are_rollback_ids(ids: &[SessionId], of: &[SessionId]) -> bool
    ensures { result ≡ pointwise is_same_id ids.now (map rollback_id of.now) }
{
    match (ids, of) {
        ([], []) => true,
        ([id, ids @ ..], [x, of @ ..]) => is_rollback_id(*id, *x) && are_rollback_ids(ids, of),
        _ => false,
    }
}

fn are_before(sessions: &[Record], marks: &[Mark], x: &Record, parts: &[Part], of: &[Part]) -> bool
    requires dated { AreDated sessions.now }
    requires marks { AreMarks Succeeded sessions.now marks.now }
    ensures { result ≡ pointwise is_same_part parts.now (map (part_before sessions.now x.now) of.now) }
{
    match (parts, of) {
        ([], []) => true,
        ([p, parts @ ..], [q, of @ ..]) => {
            is_before(sessions, marks, x, p, q) && are_before(sessions, marks, x, parts, of)
        }
        _ => false,
    }
}

fn is_before(sessions: &[Record], marks: &[Mark], x: &Record, p: &Part, of: &Part) -> bool
    requires dated { AreDated sessions.now }
    requires marks { AreMarks Succeeded sessions.now marks.now }
    ensures { result ≡ is_same_part p.now (part_before sessions.now x.now of.now) }
{
    let target = before(sessions, marks, x, &of.name);
    let versions = is_same_version(p.version, target_version(target));
    let targets = is_same_target(&p.target, &target);
    p.name.is_same(&of.name) && versions && targets
}

fn is_same_target(a: &Target, b: &Target) -> bool
    ensures { result ≡ is_same_target a.now b.now }
{
    match a {
        Target::Preinstalled => matches!(b, Target::Preinstalled),
        Target::Module {
            session,
            part,
            version,
        } => is_module(b, *session, *part, version.number()),
    }
}

fn is_module(target: &Target, session: SessionId, part: u32, version: u64) -> bool
    ensures { result ≡ is_same_target (Module session part version) target.now }
{
    match target {
        Target::Preinstalled => false,
        Target::Module {
            session: s,
            part: p,
            version: v,
        } => session.0 == s.0 && part == *p && version == v.number(),
    }
}

// That they are there

/// Whether each session whose rollback is committed has the session that the rollback makes.
pub(crate) fn are_undone(sessions: &[Record]) -> bool
    requires { Ascend sessions.now }
    ensures { result
        ≡ list_all (λ x. implies (is_committed x.rollback)
        (undoes_it x.id (session_of sessions.now (rollback_id x.id)))) sessions.now }
{
    for x in sessions {
        if is_committed(x.rollback)
            && !undoes_it(x.id, session_of(sessions, x.id.rollback_number()))
        {
            return false;
        }
    }
    true
}

fn undoes_it(x: SessionId, r: Option<&Record>) -> bool
    ensures { result ≡ undoes_it x (option_copied r.entry) }
{
    match r {
        None => false,
        Some(r) => match r.kind {
            Kind::Plain | Kind::WithRollback => false,
            Kind::RollbackOf(y) => x.0 == y.0,
        },
    }
}
