//! Whether sessions are lawful, from the tests of the other modules.
ghost use Rattle.std.specs.Prelude.{◌≡◌, Decides, IfOk};
ghost use Rattle.apex_base.specs.Sessions.{Ascend};
ghost use Rattle.apex_world.specs.Decided.{have_rollback_sessions};
ghost use Rattle.session_check.specs.Apart.{IdsDiffer, MarksDiffer, AreApart};
ghost use Rattle.session_check.specs.Before.{AreDated, StandLast};
ghost use Rattle.session_check.specs.LawfulSessions.{AreLawfulSessions};

use crate::before::{any_undoable, are_above};
use crate::distinct::are_distinct;
use crate::marks::{Which, id_numbers, marks, sorted_marks};
use crate::own::are_sound;
use crate::undone::{any_undoes, are_after_undone, are_undone, have_undone};
use apex_base::Record;
use std::alloc::{AllocError, Global};

/// Whether sessions are lawful after that many boots. It takes n log n steps for n parts of sessions. Fails only if
/// memory runs out.
pub fn are_lawful(alloc: Global, sessions: &[Record], boots: u32) -> Result<bool, AllocError>
    requires { Ascend sessions.now }
    ensures { IfOk result (λ lawful. Decides lawful (AreLawfulSessions boots sessions.now)) }
{
    if are_apart(alloc, sessions, boots)? {
        have_rollback_sessions(alloc, sessions)
    } else {
        Ok(false)
    }
}

fn are_apart(alloc: Global, sessions: &[Record], boots: u32) -> Result<bool, AllocError>
    requires { Ascend sessions.now }
    ensures { IfOk result (λ apart. Decides apart (AreApart boots sessions.now)) }
{
    if !are_sound(sessions, boots) {
        return Ok(false);
    }
    if !are_after_undone(sessions) {
        return Ok(false);
    }
    if !ids_differ(alloc, sessions)? {
        return Ok(false);
    }
    if !marks_differ(alloc, sessions, Which::Unfinished)? {
        return Ok(false);
    }
    if !marks_differ(alloc, sessions, Which::Available)? {
        return Ok(false);
    }
    if !marks_differ(alloc, sessions, Which::Activated)? {
        return Ok(false);
    }
    stand_last(alloc, sessions)
}

fn ids_differ(alloc: Global, sessions: &[Record]) -> Result<bool, AllocError>
    ensures { IfOk result (λ differ. Decides differ (IdsDiffer sessions.now)) }
{
    let numbers = id_numbers(alloc, sessions)?;
    are_distinct(alloc, numbers.as_slice())
}

fn marks_differ(alloc: Global, sessions: &[Record], which: Which) -> Result<bool, AllocError>
    ensures { IfOk result (λ differ. Decides differ (MarksDiffer which sessions.now)) }
{
    let marks = marks(alloc, sessions, which)?;
    are_distinct(alloc, marks.as_slice())
}

/// Makes marks only where a session can be undone. Where none can, none has to be the last.
#[tactic(auto, using(crate::proofs::Unasked::none_undoable))]
fn stand_last(alloc: Global, sessions: &[Record]) -> Result<bool, AllocError>
    ensures { IfOk result (λ last. Decides last (StandLast sessions.now)) }
{
    if any_undoable(sessions) {
        stand_last_by_marks(alloc, sessions)
    } else {
        Ok(true)
    }
}

fn stand_last_by_marks(alloc: Global, sessions: &[Record]) -> Result<bool, AllocError>
    ensures { IfOk result (λ last. Decides last (StandLast sessions.now)) }
{
    let marks = sorted_marks(alloc, sessions, Which::Standing)?;
    Ok(are_above(sessions, marks.as_slice()))
}

/// Makes marks only where a session takes another back. Where none does, none has to be what a rollback makes.
#[tactic(auto, using(crate::proofs::Unasked::none_undo))]
fn have_rollback_sessions(alloc: Global, sessions: &[Record]) -> Result<bool, AllocError>
    requires { AreDated sessions.now }
    ensures { IfOk result (λ have. have ≡ have_rollback_sessions sessions.now) }
{
    if any_undoes(sessions) {
        have_rollback_sessions_by_marks(alloc, sessions)
    } else {
        Ok(are_undone(sessions))
    }
}

fn have_rollback_sessions_by_marks(alloc: Global, sessions: &[Record]) -> Result<bool, AllocError>
    requires { AreDated sessions.now }
    ensures { IfOk result (λ have. have ≡ have_rollback_sessions sessions.now) }
{
    let marks = sorted_marks(alloc, sessions, Which::Succeeded)?;
    Ok(have_undone(sessions, marks.as_slice()) && are_undone(sessions))
}
