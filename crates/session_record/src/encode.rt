//! From records to bytes.
ghost use Rattle.std.specs.Prelude.{◌≡◌, ◌∷◌, ◌++◌, length, IfOk, OnOk};
ghost use Rattle.std.specs.List.{AllByRecursion};
ghost use Rattle.apex_base.specs.Moves.{state_number};
ghost use Rattle.apex_base.specs.Reading.{four_text, eight_text, short_text};
ghost use Rattle.apex_base.specs.Spelling.{case_number};
ghost use Rattle.apex_base.specs.Spelling.{kind_text, rollback_number, cause_text, version_number, target_text, part_text};
ghost use Rattle.apex_base.specs.Spelling.{parts_text, record_text};
ghost use Rattle.session_record.specs.Pushed.{Pushed};
ghost use Rattle.session_record.specs.Room.{HasPartNumber, HasRoom};
ghost use Rattle.session_record.specs.Units.{first_id, later_children};

use crate::length::record_len;
use crate::writing::{push_byte, push_eight, push_four, push_name, push_print};
use apex_base::{
    Case, Cause, Kind, Name, Part, Record, RollbackState, SessionId, State, Target, Version,
};
use std::alloc::{AllocError, Global};

/// The record's one spelling. It says nothing of the record's id.
pub fn encode_record(alloc: Global, value: &Record) -> Result<Vec<u8>, AllocError>
    // At most 255 parts, each target's part below 256, and no children or as many as parts.
    requires { HasRoom value.now }
    ensures { IfOk result (λ bytes. bytes.items ≡ record_text value.now) }
{
    let mut bytes = Vec::with_capacity(alloc, record_len(value))?;
    push_front(value, &mut bytes)?;
    push_parts(
        value.children.as_slice(),
        value.parts.as_slice(),
        &mut bytes,
    )?;
    Ok(bytes)
}

fn push_front(value: &Record, into: &mut Vec<u8>) -> Result<(), AllocError>
    requires { HasRoom value.now }
    ensures { OnOk result (Pushed into.old.items into.new.items (λ rest.
        state_number value.now.state ∷ kind_text value.now.kind (rollback_number value.now.rollback
        ∷ eight_text value.now.moment (four_text value.now.activation (short_text value.now.print
        (cause_text value.now.cause (length value.now.parts ∷ length value.now.children ∷ rest))))))) }
{
    push_byte(value.state.number(), into)?;
    push_kind(value.kind, into)?;
    push_byte(rollback_number(value.rollback), into)?;
    push_eight(value.moment.number(), into)?;
    push_four(value.activation, into)?;
    push_print(&value.print, into)?;
    push_cause(&value.cause, into)?;
    push_byte(value.parts.as_slice().len() as u8, into)?;
    push_byte(value.children.as_slice().len() as u8, into)
}

fn push_kind(kind: Kind, into: &mut Vec<u8>) -> Result<(), AllocError>
    ensures { OnOk result (Pushed into.old.items into.new.items (kind_text kind)) }
{
    match kind {
        Kind::Plain => push_numbered(1, 0, into),
        Kind::WithRollback => push_numbered(2, 0, into),
        Kind::RollbackOf(session) => push_numbered(3, session.0, into),
    }
}

/// A number of one byte, and one of four.
fn push_numbered(number: u8, id: u32, into: &mut Vec<u8>) -> Result<(), AllocError>
    ensures { OnOk result (Pushed into.old.items into.new.items (λ rest. number ∷ four_text id rest)) }
{
    push_byte(number, into)?;
    push_four(id, into)
}

fn rollback_number(rollback: Option<RollbackState>) -> u8
    ensures { result ≡ rollback_number rollback }
{
    match rollback {
        None => 0,
        Some(RollbackState::Enabling) => 1,
        Some(RollbackState::Available) => 2,
        Some(RollbackState::Committed) => 3,
        Some(RollbackState::Deleted) => 4,
    }
}

fn push_cause(cause: &Option<Cause>, into: &mut Vec<u8>) -> Result<(), AllocError>
    ensures { OnOk result (Pushed into.old.items into.new.items (cause_text cause.now)) }
{
    match cause {
        None => push_byte(0, into),
        Some(Cause::Reverted) => push_byte(1, into),
        Some(Cause::OtherBuild) => push_byte(2, into),
        Some(Cause::Superseded(id)) => push_numbered(3, id.0, into),
        Some(Cause::Part { name, case }) => push_case(name, *case, into),
    }
}

fn push_case(name: &Name, case: Case, into: &mut Vec<u8>) -> Result<(), AllocError>
    ensures { OnOk result (Pushed into.old.items into.new.items
        (λ rest. 4 ∷ case_number case ∷ short_text name.now rest)) }
{
    push_byte(4, into)?;
    push_byte(case_number(case), into)?;
    push_name(name, into)
}

fn case_number(case: Case) -> u8
    ensures { result ≡ case_number case }
{
    match case {
        Case::NotInImage => 1,
        Case::BelowPreinstalled => 2,
        Case::KeyDiffers => 3,
        Case::Unsound => 4,
        Case::NoMount => 5,
    }
}

fn push_parts(children: &[SessionId], parts: &[Part], into: &mut Vec<u8>) -> Result<(), AllocError>
    requires { AllByRecursion (λ p. HasPartNumber p.target) parts.now }
    ensures { OnOk result (Pushed into.old.items into.new.items (parts_text children.now parts.now)) }
{
    let mut left = children;
    for part in parts {
        let (id, later) = first_child(left);
        push_four(id, into)?;
        push_part(part, into)?;
        left = later;
    }
    Ok(())
}

/// The id before the next part, 0 where there are no children; and the children after it.
fn first_child(children: &[SessionId]) -> (u32, &[SessionId])
    ensures id { result.0 ≡ first_id children.now }
    ensures later { result.1.now ≡ later_children children.now }
{
    match children {
        [] => (0, children),
        [first, later @ ..] => (first.0, later),
    }
}

fn push_part(part: &Part, into: &mut Vec<u8>) -> Result<(), AllocError>
    requires { HasPartNumber part.now.target }
    ensures { OnOk result (Pushed into.old.items into.new.items (part_text part.now)) }
{
    push_name(&part.name, into)?;
    push_eight(version_number(part.version), into)?;
    push_target(&part.target, into)
}

fn version_number(version: Option<Version>) -> u64
    ensures { result ≡ version_number version }
{
    match version {
        None => 0,
        Some(version) => version.number(),
    }
}

/// Adds a target. Fails only if memory runs out.
pub fn push_target(target: &Target, into: &mut Vec<u8>) -> Result<(), AllocError>
    requires { HasPartNumber target.now }
    ensures { OnOk result (Pushed into.old.items into.new.items (target_text target.now)) }
{
    match target {
        Target::Preinstalled => push_byte(2, into),
        Target::Module {
            session,
            part,
            version,
        } => push_module(session.0, *part as u8, version.number(), into),
    }
}

fn push_module(session: u32, part: u8, version: u64, into: &mut Vec<u8>) -> Result<(), AllocError>
    ensures { OnOk result (Pushed into.old.items into.new.items
        (λ rest. 1 ∷ four_text session (part ∷ eight_text version rest))) }
{
    push_numbered(1, session, into)?;
    push_byte(part, into)?;
    push_eight(version, into)
}
