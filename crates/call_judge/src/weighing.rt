//! What the files weigh that are kept, from one batch to the next.
ghost use Rattle.std.specs.Prelude.{◌≡◌, ◌<◌, ◌^◌, option_map};
ghost use Rattle.std.specs.Cmp.Lexicographic.{slice_cmp};
ghost use Rattle.std.specs.List.Sorted.{IsStrictlySortedBy};
ghost use Rattle.std.specs.Ordering.{nat_cmp};
ghost use Rattle.apex_base.specs.RowSums.{kept_weight};
ghost use Rattle.row_codec.specs.Batch.{keys_of};
ghost use Rattle.row_map.specs.Rows.{changed};
ghost use Rattle.call_judge.specs.Weights.{value_weight, lost, gained};

use row_codec::Row;
use row_key::{FILE, has_tag};
use row_map::Rows;

/// The weight of the files once a batch is done, by that of the rows before. It looks at the keys of the batch alone.
pub fn weight_after(rows: &Rows, weight: u64, batch: &[Row]) -> u64
    requires weighs { weight ≡ kept_weight rows.now }
    requires ascending { IsStrictlySortedBy (slice_cmp nat_cmp) (keys_of batch.now) }
    requires small { kept_weight rows.now < 2 ^ 32 }
    requires small_after { kept_weight (changed rows.now batch.now) < 2 ^ 32 }
    ensures { result ≡ kept_weight (changed rows.now batch.now) }
{
    weight + gained(batch) - lost(rows, batch)
}

fn gained(batch: &[Row]) -> u64
    requires { gained batch.now < 2 ^ 32 }
    ensures { result ≡ gained batch.now }
{
    let mut weight = 0;
    for row in batch {
        let value = row.value.as_ref().map(|content| content.as_slice());
        weight += value_weight(row.key.as_slice(), value);
    }
    weight
}

fn lost(rows: &Rows, batch: &[Row]) -> u64
    requires { lost rows.now batch.now < 2 ^ 32 }
    ensures { result ≡ lost rows.now batch.now }
{
    let mut weight = 0;
    for row in batch {
        let key = row.key.as_slice();
        weight += value_weight(key, rows.get(key));
    }
    weight
}

/// What a value weighs that stands at a key, if it is a file's.
fn value_weight(key: &[u8], value: Option<&[u8]>) -> u64
    ensures { result ≡ value_weight key.now (option_map (λ bytes. bytes.now) value.entry) }
{
    match value {
        Some(content) if has_tag(key, FILE) => content.len() as u64 + 256,
        Some(_) | None => 0,
    }
}
