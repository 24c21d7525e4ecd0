//! Which sessions are unfinished, by their names: `docs/rows.md`, "A core". So a submit needn't look at each session.
ghost use Rattle.std.specs.Prelude.{◌≡◌, ℕ, List, Some, None, IfOk, OnOk, if◌then◌else◌, is_some, true};
ghost use Rattle.std.specs.BTreeMap as tree;
ghost use Rattle.std.specs.Cmp.Lexicographic.{slice_cmp};
ghost use Rattle.std.specs.Option.{option_or};
ghost use Rattle.std.specs.Ordering.{nat_cmp};
ghost use Rattle.call_judge.specs.Unfinished.{AreUnfinished, HaveRoom, under, has_name, is_session, without, left_to};

use apex_base::{Name, Part, Record, SessionId};
use std::alloc::{AllocError, Global};
use std::collections::BTreeMap;

/// By its names: the session that is unfinished and has them. None stands where there is room for one.
pub type UnfinishedByName = BTreeMap<Name, Option<SessionId>>;

/// The session that is unfinished and has a name.
pub(crate) fn unfinished_with(by_name: &UnfinishedByName, name: &Name) -> Option<SessionId>
    ensures { result ≡ under by_name.now name.now }
{
    match by_name.get(name) {
        Some(id) => *id,
        None => None,
    }
}

/// The unfinished ones of these sessions.
pub fn unfinished_of(alloc: Global, sessions: &[Record]) -> Result<UnfinishedByName, AllocError>
    ensures { IfOk result (λ by_name. AreUnfinished by_name sessions.now) }
{
    let mut by_name = BTreeMap::new(alloc);
    for r in sessions {
        if r.state.is_unfinished() {
            add_names(&mut by_name, r.parts.as_slice(), r.id)?;
        }
    }
    Ok(by_name)
}

/// The names under which no session stands yet come to be this session's.
fn add_names(
    by_name: &mut UnfinishedByName,
    parts: &[Part],
    id: SessionId,
) -> Result<(), AllocError>
    ensures { OnOk result ((name : List ℕ) → under by_name.new name
        ≡ option_or (under by_name.old name) (if has_name parts.now name then Some id else None)) }
{
    let [p, rest @ ..] = parts else {
        return Ok(());
    };
    if unfinished_with(by_name, &p.name).is_none() {
        by_name.insert(p.name, Some(id))?;
    }
    add_names(by_name, rest, id)
}

/// Makes room for a session under these names. Under each name stands what stood there.
pub(crate) fn make_room_under(
    by_name: &mut UnfinishedByName,
    parts: &[Part],
) -> Result<(), AllocError>
    ensures room { OnOk result (HaveRoom by_name.new parts.now) }
    ensures same { (name : List ℕ) → under by_name.new name ≡ under by_name.old name }
    ensures stays { (name : List ℕ) → is_some (tree.get (slice_cmp nat_cmp) by_name.old name) ≡ true
        → is_some (tree.get (slice_cmp nat_cmp) by_name.new name) ≡ true }
{
    let [p, rest @ ..] = parts else {
        return Ok(());
    };
    if by_name.get(&p.name).is_none() {
        by_name.insert(p.name, None)?;
    }
    make_room_under(by_name, rest)
}

/// These names come to be a new session's. It takes no memory.
pub(crate) fn enter_names(by_name: &mut UnfinishedByName, parts: &[Part], id: SessionId)
    requires { HaveRoom by_name.old parts.now }
    ensures { (name : List ℕ) → under by_name.new name
        ≡ (if has_name parts.now name then Some id else under by_name.old name) }
{
    let [p, rest @ ..] = parts else {
        return;
    };
    let _ = by_name.insert(p.name, Some(id));
    enter_names(by_name, rest, id);
}

/// A session has its names no more where it is finished. It takes no memory.
pub(crate) fn leave_names(by_name: &mut UnfinishedByName, r: &Record)
    ensures { (name : List ℕ) → under by_name.new name ≡ left_to r.now name (under by_name.old name) }
{
    if !r.state.is_unfinished() {
        give_up(by_name, r.parts.as_slice(), r.id);
    }
}

/// These names are this session's no more.
fn give_up(by_name: &mut UnfinishedByName, parts: &[Part], id: SessionId)
    ensures { (name : List ℕ) → under by_name.new name
        ≡ without (has_name parts.now name) id (under by_name.old name) }
{
    let [p, rest @ ..] = parts else {
        return;
    };
    if is_session(id, unfinished_with(by_name, &p.name)) {
        let _ = by_name.remove(&p.name);
    }
    give_up(by_name, rest, id);
}

fn is_session(id: SessionId, found: Option<SessionId>) -> bool
    ensures { result ≡ is_session id found }
{
    match found {
        Some(x) => x.0 == id.0,
        None => false,
    }
}
