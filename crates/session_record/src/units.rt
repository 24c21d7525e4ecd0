//! The parts of a record in bytes, each after the id of its child.
ghost use Rattle.std.specs.Prelude.{◌≡◌, [], ◌++◌, IfOk, OnOk};
ghost use Rattle.std.specs.Option.{option_map};
ghost use Rattle.session_record.specs.Units.{child_of, unit_at, with_child, units_at};

use crate::fields::part_at;
use apex_base::{Part, SessionId, u32_at};
use std::alloc::{AllocError, Global};

/// The parts of a session, and its children.
#[derive(Drop)]
pub struct Units {
    pub children: Vec<SessionId>,
    pub parts: Vec<Part>,
}

/// `count` parts, each after the id of its child, of which there are `few`, and what follows them. None if the bytes spell
/// no such parts. Fails only if memory runs out.
pub fn units_at(
    alloc: Global,
    few: u8,
    count: u8,
    bytes: &[u8],
) -> Result<Option<(Units, &[u8])>, AllocError>
    ensures { IfOk result (λ found. option_map (λ u. ((u.0.children.items, u.0.parts.items), u.1.now)) found
        ≡ units_at few count bytes.now) }
{
    let mut children = Vec::with_capacity(alloc, usize::from(few))?;
    let mut parts = Vec::with_capacity(alloc, usize::from(count))?;
    let mut rest = bytes;
    for _ in 0..count {
        let Some((unit, after)) = unit_at(few, rest) else {
            return Ok(None);
        };
        push_child(unit.child, &mut children)?;
        parts.push(unit.part)?;
        rest = after;
    }
    Ok(Some((Units { children, parts }, rest)))
}

/// A part, and its child where the session has children.
#[derive(Clone, Copy)]
struct OneUnit {
    child: Option<SessionId>,
    part: Part,
}

#[tactic(auto, unfolding(crate::specs::Units::unit_at))]
fn unit_at(few: u8, bytes: &[u8]) -> Option<(OneUnit, &[u8])>
    ensures { option_map (λ found. ((found.0.child, found.0.part), found.1.now)) result ≡ unit_at few bytes.now }
{
    let (id, rest) = u32_at(bytes)?;
    let child = child_of(few, id)?;
    let Some((part, rest)) = part_at(rest) else {
        return None;
    };
    Some((OneUnit { child, part }, rest))
}

fn child_of(few: u8, id: u32) -> Option<Option<SessionId>>
    ensures { result ≡ child_of few id }
{
    match (few, id) {
        (0, 0) => Some(None),
        (0, _) => None,
        _ => Some(Some(SessionId(id))),
    }
}

fn push_child(child: Option<SessionId>, into: &mut Vec<SessionId>) -> Result<(), AllocError>
    ensures { OnOk result (into.new.items ≡ into.old.items ++ with_child child []) }
{
    match child {
        Some(child) => {
            into.push(child)?;
            Ok(())
        }
        None => Ok(()),
    }
}
