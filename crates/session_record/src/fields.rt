//! States, kinds, causes and parts in bytes. Each reader gives what it reads, and what follows that.
ghost use Rattle.std.specs.Prelude.{◌≡◌};
ghost use Rattle.std.specs.Option.{option_map};
ghost use Rattle.apex_base.specs.Spelling.{state_of_number, state_at, kind_of_numbers, kind_at, rollback_of_number};
ghost use Rattle.apex_base.specs.Spelling.{rollback_at, case_of_number, superseded_at, case_at, cause_at, module_at};
ghost use Rattle.apex_base.specs.Spelling.{target_at, version_of_number, part_at};

use crate::reading::name_at;
use apex_base::{
    Case, Cause, Kind, Part, RollbackState, SessionId, State, Target, Version, byte_at, u32_at,
    u64_at,
};

#[tactic(auto, unfolding(apex_base::specs::Spelling::state_at))]
pub fn state_at(bytes: &[u8]) -> Option<(State, &[u8])>
    ensures { option_map (λ found. (found.0, found.1.now)) result ≡ state_at bytes.now }
{
    let (number, rest) = byte_at(bytes)?;
    let state = state_of_number(number)?;
    Some((state, rest))
}

fn state_of_number(number: u8) -> Option<State>
    ensures { result ≡ state_of_number number }
{
    match number {
        1 => Some(State::Verified),
        2 => Some(State::Staged),
        3 => Some(State::Activated),
        4 => Some(State::ActivationFailed),
        5 => Some(State::Success),
        6 => Some(State::RevertInProgress),
        7 => Some(State::Reverted),
        8 => Some(State::Aborted),
        _ => None,
    }
}

#[tactic(auto, unfolding(apex_base::specs::Spelling::kind_at))]
pub fn kind_at(bytes: &[u8]) -> Option<(Kind, &[u8])>
    ensures { option_map (λ found. (found.0, found.1.now)) result ≡ kind_at bytes.now }
{
    let (number, rest) = byte_at(bytes)?;
    let (session, rest) = u32_at(rest)?;
    let kind = kind_of_numbers(number, session)?;
    Some((kind, rest))
}

fn kind_of_numbers(number: u8, session: u32) -> Option<Kind>
    ensures { result ≡ kind_of_numbers number session }
{
    match (number, session) {
        (1, 0) => Some(Kind::Plain),
        (2, 0) => Some(Kind::WithRollback),
        (3, _) => Some(Kind::RollbackOf(SessionId(session))),
        _ => None,
    }
}

#[tactic(auto, unfolding(apex_base::specs::Spelling::rollback_at))]
pub fn rollback_at(bytes: &[u8]) -> Option<(Option<RollbackState>, &[u8])>
    ensures { option_map (λ found. (found.0, found.1.now)) result ≡ rollback_at bytes.now }
{
    let (number, rest) = byte_at(bytes)?;
    let rollback = rollback_of_number(number)?;
    Some((rollback, rest))
}

fn rollback_of_number(number: u8) -> Option<Option<RollbackState>>
    ensures { result ≡ rollback_of_number number }
{
    match number {
        0 => Some(None),
        1 => Some(Some(RollbackState::Enabling)),
        2 => Some(Some(RollbackState::Available)),
        3 => Some(Some(RollbackState::Committed)),
        4 => Some(Some(RollbackState::Deleted)),
        _ => None,
    }
}

#[tactic(auto, unfolding(apex_base::specs::Spelling::cause_at))]
pub fn cause_at(bytes: &[u8]) -> Option<(Option<Cause>, &[u8])>
    ensures { option_map (λ found. (found.0, found.1.now)) result ≡ cause_at bytes.now }
{
    match bytes {
        [0, rest @ ..] => Some((None, rest)),
        [1, rest @ ..] => Some((Some(Cause::Reverted), rest)),
        [2, rest @ ..] => Some((Some(Cause::OtherBuild), rest)),
        [3, rest @ ..] => superseded_at(rest),
        [4, rest @ ..] => case_at(rest),
        _ => None,
    }
}

#[tactic(auto, unfolding(apex_base::specs::Spelling::superseded_at))]
fn superseded_at(bytes: &[u8]) -> Option<(Option<Cause>, &[u8])>
    ensures { option_map (λ found. (found.0, found.1.now)) result ≡ superseded_at bytes.now }
{
    let (id, rest) = u32_at(bytes)?;
    Some((Some(Cause::Superseded(SessionId(id))), rest))
}

#[tactic(auto, unfolding(apex_base::specs::Spelling::case_at))]
fn case_at(bytes: &[u8]) -> Option<(Option<Cause>, &[u8])>
    ensures { option_map (λ found. (found.0, found.1.now)) result ≡ case_at bytes.now }
{
    let (number, rest) = byte_at(bytes)?;
    let case = case_of_number(number)?;
    let Some((name, rest)) = name_at(rest) else {
        return None;
    };
    Some((Some(Cause::Part { name, case }), rest))
}

fn case_of_number(number: u8) -> Option<Case>
    ensures { result ≡ case_of_number number }
{
    match number {
        1 => Some(Case::NotInImage),
        2 => Some(Case::BelowPreinstalled),
        3 => Some(Case::KeyDiffers),
        4 => Some(Case::Unsound),
        5 => Some(Case::NoMount),
        _ => None,
    }
}

#[tactic(auto, unfolding(apex_base::specs::Spelling::part_at))]
pub fn part_at(bytes: &[u8]) -> Option<(Part, &[u8])>
    ensures { option_map (λ found. (found.0, found.1.now)) result ≡ part_at bytes.now }
{
    let Some((name, rest)) = name_at(bytes) else {
        return None;
    };
    let (number, rest) = u64_at(rest)?;
    let version = version_of_number(number)?;
    let Some((target, rest)) = target_at(rest) else {
        return None;
    };
    let part = Part {
        name,
        version,
        target,
    };
    Some((part, rest))
}

fn version_of_number(number: u64) -> Option<Option<Version>>
    ensures { result ≡ version_of_number number }
{
    if number == 0 {
        return Some(None);
    }
    let version = Version::new(number)?;
    Some(Some(version))
}

/// A target and what follows it, or None where the bytes begin with none. It takes no memory.
#[tactic(auto, unfolding(apex_base::specs::Spelling::target_at))]
pub fn target_at(bytes: &[u8]) -> Option<(Target, &[u8])>
    ensures { option_map (λ found. (found.0, found.1.now)) result ≡ target_at bytes.now }
{
    match bytes {
        [1, rest @ ..] => module_at(rest),
        [2, rest @ ..] => Some((Target::Preinstalled, rest)),
        _ => None,
    }
}

#[tactic(auto, unfolding(apex_base::specs::Spelling::module_at))]
fn module_at(bytes: &[u8]) -> Option<(Target, &[u8])>
    ensures { option_map (λ found. (found.0, found.1.now)) result ≡ module_at bytes.now }
{
    let (session, rest) = u32_at(bytes)?;
    let (part, rest) = byte_at(rest)?;
    let (number, rest) = u64_at(rest)?;
    let version = Version::new(number)?;
    let target = Target::Module {
        session: SessionId(session),
        part: u32::from(part),
        version,
    };
    Some((target, rest))
}
