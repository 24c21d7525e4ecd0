//! From bytes to records.
ghost use Rattle.std.specs.Prelude.{◌≡◌, IfOk, IfSome, IfNone};
ghost use Rattle.apex_base.specs.declared.records.Record.{Record};
ghost use Rattle.apex_base.specs.Spelling.{Spells, record_of};
ghost use Rattle.session_record.specs.Units.{is_count};

use crate::front::front_at;
use crate::units::units_at;
use apex_base::{Listed, Record, SessionId};
use std::alloc::{AllocError, Global};

/// The record of this id that the bytes spell; None if and only if they spell none.
pub fn decode_record(
    alloc: Global,
    id: SessionId,
    bytes: &[u8],
) -> Result<Option<Record>, AllocError>
    // What is found has this id and is spelled so, each byte of it.
    ensures found { IfOk result (λ found. IfSome found (λ r. (r.id ≡ id) × Spells bytes.now r)) }
    ensures none { IfOk result (λ found. IfNone found ((r : Record) → r.id ≡ id → Spells bytes.now r → ⊥)) }
    ensures exact { IfOk result (λ found. found ≡ record_of id bytes.now) }
{
    let _number = id.0;
    read_record(alloc, id, bytes)
}

fn read_record(alloc: Global, id: SessionId, bytes: &[u8]) -> Result<Option<Record>, AllocError>
    ensures { IfOk result (λ found. found ≡ record_of id bytes.now) }
{
    let Some((front, rest)) = front_at(bytes) else {
        return Ok(None);
    };
    if !is_count(front.children, front.parts) {
        return Ok(None);
    }
    let Some((units, rest)) = units_at(alloc, front.children, front.parts, rest)? else {
        return Ok(None);
    };
    if !rest.is_empty() {
        return Ok(None);
    }
    Ok(Some(Record {
        id,
        children: Listed::of(units.children),
        kind: front.kind,
        parts: Listed::of(units.parts),
        print: front.print,
        state: front.state,
        cause: front.cause,
        activation: front.activation,
        rollback: front.rollback,
        moment: front.moment,
    }))
}

/// Whether so many parts may have so many children: as many, or none.
fn is_count(children: u8, parts: u8) -> bool
    ensures { result ≡ is_count children parts }
{
    children == 0 || children == parts
}
