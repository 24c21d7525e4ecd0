//! The row of boots: how many there were, and the last moments.
ghost use Rattle.std.specs.Prelude.{◌≡◌, ◌==◌, ◌&&◌, not, nat_le, IfOk};
ghost use Rattle.std.specs.Option.{is_some, option_map};
ghost use Rattle.apex_world.specs.Opened.{moments_at, boots_of, opened_boots};
ghost use Rattle.row_check.specs.RightRows.{are_boots, is_boots_row};

use apex_base::{Millis, byte_at, u32_at};
use row_key::boots_key;
use row_map::Rows;
use session_record::moment_at;
use std::alloc::{AllocError, Global};

/// Whether the bytes are so many moments.
fn are_moments(count: u8, bytes: &[u8]) -> bool
    ensures { result ≡ is_some (moments_at count bytes.now) }
{
    let mut rest = bytes;
    for _ in 0..count {
        match moment_at(rest) {
            Some((_, after)) => rest = after,
            None => return false,
        }
    }
    rest.is_empty()
}

/// There was a boot, and there are at most five moments.
fn is_count(boots: u32, moments: u8) -> bool
    ensures { result ≡ (not (boots == 0) && nat_le moments 5) }
{
    boots != 0 && moments <= 5
}

/// Whether a value spells boots as rows have them.
fn are_boots(value: &[u8]) -> bool
    ensures { result ≡ are_boots (boots_of value.now) }
{
    let Some((boots, rest)) = u32_at(value) else {
        return false;
    };
    let Some((count, after)) = byte_at(rest) else {
        return false;
    };
    is_count(boots, count) && are_moments(count, after)
}

/// Whether a row of tag 1 is right, by its key without the tag.
pub fn is_boots_row(key: &[u8], value: &[u8]) -> bool
    ensures { result ≡ is_boots_row key.now value.now }
{
    key.is_empty() && are_boots(value)
}

/// How many boots there were, and the last moments, the oldest first.
#[derive(Drop)]
pub struct Boots {
    pub count: u32,
    pub moments: Vec<Millis>,
}

/// So many moments, after which nothing follows.
fn moments_at(alloc: Global, count: u8, bytes: &[u8]) -> Result<Option<Vec<Millis>>, AllocError>
    ensures { IfOk result (λ found. option_map (λ moments. moments.items) found ≡ moments_at count bytes.now) }
{
    let mut moments = Vec::new(alloc);
    let mut rest = bytes;
    for _ in 0..count {
        let Some(found) = moment_at(rest) else {
            return Ok(None);
        };
        moments.push(found.0)?;
        rest = found.1;
    }
    if !rest.is_empty() {
        return Ok(None);
    }
    Ok(Some(moments))
}

#[tactic(auto, unfolding(apex_world::specs::Opened::boots_of))]
fn boots_of(alloc: Global, value: &[u8]) -> Result<Option<Boots>, AllocError>
    ensures { IfOk result (λ found. option_map (λ boots. (boots.count, boots.moments.items)) found
        ≡ boots_of value.now) }
{
    let Some((count, rest)) = u32_at(value) else {
        return Ok(None);
    };
    let Some((number, after)) = byte_at(rest) else {
        return Ok(None);
    };
    let Some(moments) = moments_at(alloc, number, after)? else {
        return Ok(None);
    };
    Ok(Some(Boots { count, moments }))
}

/// The boots of the world that the rows open to.
pub fn opened_boots(alloc: Global, rows: &Rows) -> Result<Boots, AllocError>
    ensures { IfOk result (λ boots. (boots.count, boots.moments.items) ≡ opened_boots rows.now) }
{
    if let Some(value) = rows.get(&boots_key()) {
        if let Some(boots) = boots_of(alloc, value)? {
            return Ok(boots);
        }
    }
    Ok(Boots {
        count: 0,
        moments: Vec::new(alloc),
    })
}
