//! What a boot makes of each session, and which records it changes: `docs/boot.md`. No two sessions look at each other.
ghost use Rattle.std.specs.Prelude.{◌≡◌, ◌++◌, OnOk, flat_map, is_some, if◌then◌else◌};
ghost use Rattle.std.specs.List.{AllByRecursion, list_all};
ghost use Rattle.apex_base.specs.Rollbacks.{given_up};
ghost use Rattle.session_record.specs.Room.{HasPartNumber};
ghost use Rattle.session_record.specs.Room.{HasRoom};
ghost use Rattle.apex_world.specs.Boot.{ended, reverted, keeps_rollback, rebuilt, changed_to};
ghost use Rattle.world_laws.specs.BootByRows.{activated_by_rows, become_in, sessions_in};
ghost use Rattle.apex_world.specs.Selection.{preinstalled};
ghost use Rattle.boot_recover.specs.Booted.{record_change, record_changes};

use crate::aging::age;
use crate::choosing::{Selection, preinstalled};
use apex_base::{Cause, Mounter, Part, Record, RollbackState, State};
use apex_world::{Changed, Image, Package};
use row_codec::Row;
use std::alloc::{AllocError, Global};
use stored_world::record_rows;

/// The sessions whose state a boot changed, and the rows that it changes.
#[derive(Drop)]
pub(crate) struct Noted {
    pub(crate) changes: Vec<Changed>,
    pub(crate) rows: Vec<Row>,
}

/// What the boot makes of all sessions. It notes those whose state it changes, and their records.
pub(crate) fn boot_sessions<M: Mounter>(
    alloc: Global,
    sessions: &mut Vec<Record>,
    selection: &Selection<M>,
    noted: &mut Noted,
) -> Result<(), AllocError>
    requires { AllByRecursion HasRoom sessions.old.items }
    ensures sessions { OnOk result (sessions.new.items ≡ sessions_in (M.mounting selection.now.mounter.now)
        selection.now.rows.now selection.now.order.now selection.now.number sessions.old.items) }
    ensures changes { OnOk result (noted.new.changes.items ≡ noted.old.changes.items ++ flat_map
        (λ r. changed_to r (become_in (M.mounting selection.now.mounter.now) selection.now.rows.now
        selection.now.order.now selection.now.number r)) sessions.old.items) }
    ensures rows { OnOk result (noted.new.rows.items ≡ noted.old.rows.items ++ record_changes (become_in
        (M.mounting selection.now.mounter.now) selection.now.rows.now selection.now.order.now selection.now.number)
        sessions.old.items) }
{
    for r in sessions.iter_mut() {
        boot_session(alloc, r, selection, noted)?;
    }
    Ok(())
}

fn boot_session<M: Mounter>(
    alloc: Global,
    r: &mut Record,
    selection: &Selection<M>,
    noted: &mut Noted,
) -> Result<(), AllocError>
    requires { HasRoom r.old }
    ensures session { OnOk result (r.new ≡ become_in (M.mounting selection.now.mounter.now) selection.now.rows.now
        selection.now.order.now selection.now.number r.old) }
    ensures changes { OnOk result (noted.new.changes.items ≡ noted.old.changes.items ++ changed_to r.old r.new) }
    ensures rows { OnOk result (noted.new.rows.items ≡ noted.old.rows.items ++ record_change r.old r.new) }
{
    let before = r.state;
    turn(alloc, r, selection)?;
    note(alloc, before, r, noted)
}

/// Notes a session whose state was another before.
fn note(alloc: Global, before: State, r: &Record, noted: &mut Noted) -> Result<(), AllocError>
    requires { HasRoom r.now }
    ensures changes { OnOk result (noted.new.changes.items
        ≡ noted.old.changes.items ++ changed_to (record r.now { state = before }) r.now) }
    ensures rows { OnOk result (noted.new.rows.items
        ≡ noted.old.rows.items ++ record_change (record r.now { state = before }) r.now) }
{
    if before.number() == r.state.number() {
        return Ok(());
    }
    noted.changes.push(Changed {
        id: r.id,
        state: r.state,
        cause: r.cause,
    })?;
    let mut rows = record_rows(alloc, r)?;
    noted.rows.append(&mut rows)
}

/// The steps of a boot, one after another.
fn turn<M: Mounter>(
    alloc: Global,
    r: &mut Record,
    selection: &Selection<M>,
) -> Result<(), AllocError>
    requires { HasRoom r.old }
    ensures turned { OnOk result (r.new ≡ become_in (M.mounting selection.now.mounter.now) selection.now.rows.now
        selection.now.order.now selection.now.number r.old) }
    ensures room { OnOk result (HasRoom r.new) }
{
    revert(r);
    rebuild(r, selection.image());
    activate(alloc, r, selection)?;
    age(r, selection.order.time);
    Ok(())
}

fn revert(r: &mut Record)
    ensures { r.new ≡ reverted r.old }
{
    match r.state {
        State::RevertInProgress => end(r, State::Reverted, Cause::Reverted),
        State::Verified
        | State::Staged
        | State::Activated
        | State::ActivationFailed
        | State::Success
        | State::Reverted
        | State::Aborted => {}
    }
}

fn rebuild(r: &mut Record, image: &Image)
    ensures { r.new ≡ rebuilt image.now r.old }
{
    r.rollback = rollback_left(image, r);
    match r.state {
        State::Activated => {
            if !r.print.is_same(&image.print) {
                end(r, State::Reverted, Cause::OtherBuild);
            }
        }
        State::Verified
        | State::Staged
        | State::ActivationFailed
        | State::Success
        | State::RevertInProgress
        | State::Reverted
        | State::Aborted => {}
    }
}

/// The rollback's state after the image. Where there is none, the image needn't be looked at.
fn rollback_left(image: &Image, r: &Record) -> Option<RollbackState>
    ensures { result ≡ if keeps_rollback image.now r.now then r.now.rollback else given_up r.now.rollback }
{
    if r.rollback.is_none() || keeps_rollback(image, r) {
        r.rollback
    } else {
        RollbackState::given_up(r.rollback)
    }
}

fn activate<M: Mounter>(
    alloc: Global,
    r: &mut Record,
    selection: &Selection<M>,
) -> Result<(), AllocError>
    requires { AllByRecursion (λ p. HasPartNumber p.target) r.old.parts }
    ensures { OnOk result (r.new ≡ activated_by_rows (M.mounting selection.now.mounter.now) selection.now.rows.now
        selection.now.order.now selection.now.number r.old) }
{
    match r.state {
        State::Staged => {
            if !r.print.is_same(&selection.image().print) {
                end(r, State::ActivationFailed, Cause::OtherBuild);
                return Ok(());
            }
            match selection.cause_of(alloc, r.parts.as_slice())? {
                None => {
                    r.state = State::Activated;
                    r.activation = selection.number;
                }
                Some(cause) => end(r, State::ActivationFailed, cause),
            }
        }
        State::Activated => {
            if let Some(cause) = selection.cause_of(alloc, r.parts.as_slice())? {
                end(r, State::Reverted, cause);
            }
        }
        State::Verified
        | State::ActivationFailed
        | State::Success
        | State::RevertInProgress
        | State::Reverted
        | State::Aborted => {}
    }
    Ok(())
}

fn end(r: &mut Record, state: State, cause: Cause)
    ensures { r.new ≡ ended state cause r.old }
{
    r.state = state;
    r.cause = Some(cause);
}

fn keeps_rollback(image: &Image, r: &Record) -> bool
    ensures { result ≡ keeps_rollback image.now r.now }
{
    r.print.is_same(&image.print) && has_all_names(image.modules.as_slice(), r.parts.as_slice())
}

fn has_all_names(image: &[Package], parts: &[Part]) -> bool
    ensures { result ≡ list_all (λ p. is_some (preinstalled image.now p.name)) parts.now }
{
    parts.iter().all(|p| preinstalled(image, &p.name).is_some())
}
