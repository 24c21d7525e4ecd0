//! Rows of one length, committed one by one.
ghost use Rattle.std.specs.Prelude.{◌≡◌, ◌<◌, ◌^◌, ℕ, length, IfOk};
ghost use Rattle.row_codec.specs.Batch.{IsBatch};

use crate::why::Why;
use apex_base::{Bytes, Listed};
use apex_disk::Disk;
use row_codec::Row;
use row_store::RowStore;
use std::alloc::{AllocError, Global};

/// Commits so many new rows, each in a batch of its own, with values of that length.
pub fn fill<D: Disk>(
    alloc: Global,
    store: &mut RowStore<D>,
    count: u32,
    len: u32,
) -> Result<(), Why> {
    for k in 0..count {
        if store.seq() == u64::MAX {
            return Err(Why::NoNumber);
        }
        let rows = one_row(alloc, k, len)?;
        store.commit(rows).map_err(Why::NoCommit)?;
    }
    Ok(())
}

/// A batch of one row under a key of four bytes.
fn one_row(alloc: Global, key: u32, len: u32) -> Result<Vec<Row>, AllocError>
    ensures { IfOk result (λ rows. (seq : ℕ) → seq < 2 ^ 64 → IsBatch (record { seq = seq; rows = rows.items })) }
{
    let key = Listed::of(key.to_be_bytes().to_vec(alloc)?);
    let value = Some(Bytes::of(value(alloc, len)?));
    let mut rows = Vec::new(alloc);
    rows.push(Row { key, value })?;
    Ok(rows)
}

fn value(alloc: Global, len: u32) -> Result<Vec<u8>, AllocError>
    ensures { IfOk result (λ bytes. length bytes.items ≡ len) }
{
    Ok(vec![in alloc; 7u8; len as usize]?)
}
