//! The row of a session's record, as a batch: `docs/rows.md`.
ghost use Rattle.std.specs.Prelude.{◌≡◌, ◌∷◌, [], IfOk, Some};
ghost use Rattle.std.specs.Cmp.Lexicographic.{slice_cmp};
ghost use Rattle.std.specs.List.Sorted.{IsStrictlySortedBy};
ghost use Rattle.std.specs.Ordering.{nat_cmp};
ghost use Rattle.row_codec.specs.Batch.{keys_of};
ghost use Rattle.apex_base.specs.Keys.{RecordOf, key_text};
ghost use Rattle.apex_base.specs.Spelling.{record_text};
ghost use Rattle.session_record.specs.Room.{HasRoom};

use apex_base::{Bytes, Record};
use row_codec::Row;
use row_key::record_key;
use session_record::encode_record;
use std::alloc::{AllocError, Global};

/// The batch of a session's record.
#[tactic(auto, using(crate::proofs::Batches::one_ascends))]
pub fn record_rows(alloc: Global, r: &Record) -> Result<Vec<Row>, AllocError>
    requires { HasRoom r.now }
    ensures rows { IfOk result
        (λ rows. rows.items ≡ record { key = key_text (RecordOf r.now.id); value = Some (record_text r.now) } ∷ []) }
    ensures ascending { IfOk result (λ rows. IsStrictlySortedBy (slice_cmp nat_cmp) (keys_of rows.items)) }
{
    let key = record_key(alloc, r.id)?;
    let value = Some(Bytes::of(encode_record(alloc, r)?));
    let mut rows = Vec::with_capacity(alloc, 1)?;
    rows.push(Row { key, value })?;
    Ok(rows)
}
