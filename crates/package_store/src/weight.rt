//! What the modules that are kept weigh.
ghost use Rattle.std.specs.Prelude.{◌≡◌, ◌<◌, ◌^◌};
ghost use Rattle.apex_base.specs.RowSums.{kept_weight, file_row_weight};
ghost use Rattle.row_map.specs.Rows.{rows_of};

use apex_base::Bytes;
use row_key::{FILE, has_tag};
use std::collections::BTreeMap;

/// The sum of the weights of the files that are kept. It takes no memory.
pub fn kept_weight(rows: &BTreeMap<Vec<u8>, Bytes>) -> u64
    requires { kept_weight (rows_of rows.now.entries) < 2 ^ 64 }
    ensures { result ≡ kept_weight (rows_of rows.now.entries) }
{
    let mut weight = 0;
    for (key, content) in rows {
        if has_tag(key, FILE) {
            weight += content.as_slice().len() as u64 + 256;
        }
    }
    weight
}
