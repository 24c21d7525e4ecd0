//! From bytes to batches.
ghost use Rattle.std.specs.Prelude.{◌≡◌, [], length, IfOk, IfSome, IfNone, Option};
ghost use Rattle.std.specs.Option.{option_map};
ghost use Rattle.row_codec.specs.Batch.{Spells, value_at, put_at, delete_at, row_at, row_above, rows_of, batch_of};
ghost use Rattle.row_codec.specs.Slices.{row_seen};

use crate::{Batch, Row};
use apex_base::{Bytes, Listed, bytes_at, short_at, u32_at, u64_at};
use std::alloc::{AllocError, Global};

/// The batch that the bytes spell; None if and only if they spell none.
pub fn decode_batch(alloc: Global, bytes: &[u8]) -> Result<Option<Batch>, AllocError>
    // What is found is spelled so, each byte of it.
    ensures found { IfOk result (λ found. IfSome found (Spells bytes.now)) }
    ensures none { IfOk result (λ found. IfNone found ((batch : Batch) → Spells bytes.now batch → ⊥)) }
    ensures exact { IfOk result (λ found. found ≡ batch_of bytes.now) }
{
    read_batch(alloc, bytes)
}

#[tactic(auto, unfolding(crate::specs::Batch::batch_of))]
fn read_batch(alloc: Global, bytes: &[u8]) -> Result<Option<Batch>, AllocError>
    ensures { IfOk result (λ found. found ≡ batch_of bytes.now) }
{
    let Some((seq, rest)) = u64_at(bytes) else {
        return Ok(None);
    };
    let Some((count, rest)) = u32_at(rest) else {
        return Ok(None);
    };
    let Some(rows) = rows_of(alloc, count, rest)? else {
        return Ok(None);
    };
    Ok(Some(Batch {
        seq,
        rows: Listed::of(rows),
    }))
}

fn rows_of(alloc: Global, count: u32, bytes: &[u8]) -> Result<Option<Vec<Row>>, AllocError>
    ensures { IfOk result (λ found. option_map (λ rows. rows.items) found ≡ rows_of [] count bytes.now) }
{
    let mut rows = Vec::new(alloc);
    let mut low = &bytes[..0];
    let mut rest = bytes;
    for _ in 0..count {
        let Some((row, after)) = row_above(low, rest) else {
            return Ok(None);
        };
        rows.push(row.owned(alloc)?)?;
        low = row.key;
        rest = after;
    }
    if !rest.is_empty() {
        return Ok(None);
    }
    Ok(Some(rows))
}

/// A row whose bytes stand in those of its batch.
#[derive(Clone, Copy)]
struct RowSlices<'a> {
    key: &'a [u8],
    value: Option<&'a [u8]>,
}

impl RowSlices<'_> {
    fn owned(self, alloc: Global) -> Result<Row, AllocError>
        ensures { IfOk result (λ row. row ≡ row_seen self.entry) }
    {
        let key = Listed::of(Vec::from_slice(alloc, self.key)?);
        let value = match self.value {
            Some(value) => Some(Bytes::shared(alloc, Vec::from_slice(alloc, value)?)?),
            None => None,
        };
        Ok(Row { key, value })
    }
}

#[tactic(auto, unfolding(crate::specs::Batch::row_above))]
fn row_above<'a>(low: &[u8], bytes: &'a [u8]) -> Option<(RowSlices<'a>, &'a [u8])>
    ensures { option_map (λ found. (row_seen found.0, found.1.now)) result ≡ row_above low.now bytes.now }
{
    let (row, rest) = row_at(bytes)?;
    if low.cmp(row.key).is_lt() {
        Some((row, rest))
    } else {
        None
    }
}

#[tactic(auto, unfolding(crate::specs::Batch::row_at))]
fn row_at(bytes: &[u8]) -> Option<(RowSlices<'_>, &[u8])>
    ensures { option_map (λ found. (row_seen found.0, found.1.now)) result ≡ row_at bytes.now }
{
    match bytes {
        [1, rest @ ..] => put_at(rest),
        [2, rest @ ..] => delete_at(rest),
        _ => None,
    }
}

#[tactic(auto, unfolding(crate::specs::Batch::put_at))]
fn put_at(bytes: &[u8]) -> Option<(RowSlices<'_>, &[u8])>
    ensures { option_map (λ found. (row_seen found.0, found.1.now)) result ≡ put_at bytes.now }
{
    let (key, rest) = short_at(bytes)?;
    let (value, rest) = value_at(rest)?;
    let value = Some(value);
    Some((RowSlices { key, value }, rest))
}

#[tactic(auto, unfolding(crate::specs::Batch::delete_at))]
fn delete_at(bytes: &[u8]) -> Option<(RowSlices<'_>, &[u8])>
    ensures { option_map (λ found. (row_seen found.0, found.1.now)) result ≡ delete_at bytes.now }
{
    let (key, rest) = short_at(bytes)?;
    Some((RowSlices { key, value: None }, rest))
}

#[tactic(auto, unfolding(crate::specs::Batch::value_at))]
fn value_at(bytes: &[u8]) -> Option<(&[u8], &[u8])>
    ensures { option_map (λ found. (found.0.now, found.1.now)) result ≡ value_at bytes.now }
{
    let (len, rest) = u32_at(bytes)?;
    bytes_at(len as usize, rest)
}
