//! Whether keys are distinct.
ghost use Rattle.std.specs.Prelude.{IfOk, Decides};
ghost use Rattle.std.specs.Ordering.{eq_by_cmp};
ghost use Rattle.std.specs.List.{IsDistinct};
ghost use Rattle.std.specs.BTreeSet as sorted;

use std::alloc::{AllocError, Global};
use std::collections::BTreeSet;

/// Whether no two of the keys are the same.
pub(crate) fn are_distinct<K: Ord + Copy + Drop>(
    alloc: Global,
    keys: &[K],
) -> Result<bool, AllocError>
    ensures { IfOk result (λ d. Decides d (IsDistinct (eq_by_cmp K.cmp) keys.now)) }
{
    let set = set_of(alloc, keys)?;
    Ok(set.len() == keys.len())
}

fn set_of<K: Ord + Copy + Drop>(alloc: Global, keys: &[K]) -> Result<BTreeSet<K>, AllocError>
    ensures { IfOk result (sorted.IsFromIterResult K.cmp keys.now) }
{
    keys.iter().copied().collect(alloc)
}
