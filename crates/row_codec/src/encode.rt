//! From batches to bytes.
ghost use Rattle.std.specs.Prelude.{◌≡◌, ◌<◌, ◌≤◌, ◌^◌, ◌∷◌, ◌++◌, length, take, IfOk, OnOk, OnErr};
ghost use Rattle.std.specs.Int.{w32, to_be_bytes};
ghost use Rattle.std.specs.List.{AllByRecursion, flat_map};
ghost use Rattle.row_codec.specs.Batch.{IsRow, IsBatch, row_text, batch_text};

use crate::{Batch, Row};
use std::alloc::{AllocError, Global};

/// The batch's one spelling.
pub fn encode_batch(alloc: Global, batch: &Batch) -> Result<Vec<u8>, AllocError>
    requires { IsBatch batch.now }
    ensures { IfOk result (λ bytes. bytes.items ≡ batch_text batch.now) }
{
    let mut bytes = Vec::new(alloc);
    push_batch(batch.seq, batch.rows.as_slice(), &mut bytes)?;
    Ok(bytes)
}

/// Adds the spelling of the batch of this number and these rows at the end.
pub fn push_batch(seq: u64, rows: &[Row], into: &mut Vec<u8>) -> Result<(), AllocError>
    requires { IsBatch (record { seq = seq; rows = rows.now }) }
    ensures pushed { OnOk result (into.new.items
        ≡ into.old.items ++ batch_text (record { seq = seq; rows = rows.now })) }
    ensures unchanged { OnErr result (into.new.items ≡ into.old.items) }
{
    let start = into.len();
    let pushed = push_text(seq, rows, into);
    if pushed.is_err() {
        into.truncate(start);
    }
    pushed
}

/// Adds the spelling, or after an error a front of it.
#[tactic(auto, using(crate::proofs::Growth::growth), unfolding(crate::specs::Batch::batch_text))]
fn push_text(seq: u64, rows: &[Row], into: &mut Vec<u8>) -> Result<(), AllocError>
    requires { IsBatch (record { seq = seq; rows = rows.now }) }
    ensures pushed { OnOk result (into.new.items
        ≡ into.old.items ++ batch_text (record { seq = seq; rows = rows.now })) }
    ensures kept { take (length into.old.items) into.new.items ≡ into.old.items }
{
    into.extend_from_slice(&seq.to_be_bytes())?;
    into.extend_from_slice(&(rows.len() as u32).to_be_bytes())?;
    push_rows(rows, into)
}

#[tactic(auto, using(crate::proofs::Growth::growth))]
fn push_rows(rows: &[Row], into: &mut Vec<u8>) -> Result<(), AllocError>
    requires { AllByRecursion IsRow rows.now }
    ensures pushed { OnOk result (into.new.items ≡ into.old.items ++ flat_map row_text rows.now) }
    ensures kept { take (length into.old.items) into.new.items ≡ into.old.items }
{
    for row in rows {
        push_row(row, into)?;
    }
    Ok(())
}

#[tactic(auto, using(crate::proofs::Growth::growth))]
fn push_row(row: &Row, into: &mut Vec<u8>) -> Result<(), AllocError>
    requires { IsRow row.now }
    ensures pushed { OnOk result (into.new.items ≡ into.old.items ++ row_text row.now) }
    ensures kept { take (length into.old.items) into.new.items ≡ into.old.items }
{
    match &row.value {
        Some(value) => {
            push_key(1, row.key.as_slice(), into)?;
            push_value(value.as_slice(), into)
        }
        None => push_key(2, row.key.as_slice(), into),
    }
}

#[tactic(auto, using(crate::proofs::Growth::growth))]
fn push_key(tag: u8, key: &[u8], into: &mut Vec<u8>) -> Result<(), AllocError>
    requires { length key.now ≤ 255 }
    ensures pushed { OnOk result (into.new.items ≡ into.old.items ++ tag ∷ length key.now ∷ key.now) }
    ensures kept { take (length into.old.items) into.new.items ≡ into.old.items }
{
    into.extend_from_slice(&[tag, key.len() as u8])?;
    into.extend_from_slice(key)
}

#[tactic(auto, using(crate::proofs::Growth::growth))]
fn push_value(value: &[u8], into: &mut Vec<u8>) -> Result<(), AllocError>
    requires { length value.now < 2 ^ 32 }
    ensures pushed { OnOk result (into.new.items
        ≡ into.old.items ++ (to_be_bytes w32 (length value.now) ++ value.now)) }
    ensures kept { take (length into.old.items) into.new.items ≡ into.old.items }
{
    into.extend_from_slice(&(value.len() as u32).to_be_bytes())?;
    into.extend_from_slice(value)
}
