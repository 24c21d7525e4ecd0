//! Rows whose keys begin alike.
ghost use Rattle.std.specs.Prelude.{◌≡◌, ◌≢◌, ◌++◌, [], true, false, map, IfOk, option_map};
ghost use Rattle.std.specs.FinMap as fin;
ghost use Rattle.apex_base.specs.Reading.{four_text};
ghost use Rattle.row_check.specs.KeptRows.{era_key};
ghost use Rattle.row_check.specs.RowFronts.{rest_after, rows_after};

use apex_base::Name;
use row_map::Rows;
use session_record::push_name;
use std::alloc::{AllocError, Global};

/// A row whose key begins with a front: what follows it in the key, and the value.
#[derive(Drop)]
pub(crate) struct RowAfter<'a> {
    pub(crate) key: &'a [u8],
    pub(crate) value: &'a [u8],
}

/// The rows whose keys begin with a front, ascending by key. It reads these rows, and one more.
pub(crate) fn rows_after<'a>(
    alloc: Global,
    rows: &'a Rows,
    front: &[u8],
) -> Result<Vec<RowAfter<'a>>, AllocError>
    ensures { IfOk result (λ found. map (λ row. (row.key.now, row.value.now)) found.items
        ≡ rows_after front.now (fin.entries rows.now)) }
{
    let start = front.to_vec(alloc)?;
    let mut found = Vec::new(alloc);
    for (key, value) in rows.by_key().range(&start..) {
        let Some(key) = rest_after(key.as_slice(), front) else {
            break;
        };
        let value = value.as_slice();
        found.push(RowAfter { key, value })?;
    }
    Ok(found)
}

/// Whether there is a row whose key begins with a front. It reads one row at most.
pub(crate) fn has_rows(alloc: Global, rows: &Rows, front: &[u8]) -> Result<bool, AllocError>
    ensures some { IfOk result (λ has. has ≡ true → rows_after front.now (fin.entries rows.now) ≢ []) }
    ensures none { IfOk result (λ has. has ≡ false → rows_after front.now (fin.entries rows.now) ≡ []) }
{
    let start = front.to_vec(alloc)?;
    match rows.by_key().range(&start..).next() {
        Some((key, _)) => Ok(rest_after(key.as_slice(), front).is_some()),
        None => Ok(false),
    }
}

/// What follows a front in a key that begins with it.
fn rest_after<'a>(key: &'a [u8], front: &[u8]) -> Option<&'a [u8]>
    ensures { option_map (λ rest. rest.now) result ≡ rest_after front.now key.now }
{
    key.strip_prefix(front)
}

/// The front of the keys of what a name had before a boot.
pub(crate) fn era_front(alloc: Global, boot: u32, name: &Name) -> Result<Vec<u8>, AllocError>
    ensures { IfOk result (λ front. front.items ≡ era_key boot name.now []) }
{
    let mut front = era_key(alloc, boot, &[])?;
    push_name(name, &mut front)?;
    Ok(front)
}

/// The key of what a name had before a boot, by the name and the key in one.
pub(crate) fn era_key(alloc: Global, boot: u32, under: &[u8]) -> Result<Vec<u8>, AllocError>
    ensures { IfOk result (λ key. key.items ≡ four_text boot under.now) }
{
    let mut key = Vec::with_capacity(alloc, 4)?;
    key.extend_from_slice(&boot.to_be_bytes())?;
    key.extend_from_slice(under)?;
    Ok(key)
}

/// A front, and what follows it.
pub(crate) fn joined(alloc: Global, front: &[u8], rest: &[u8]) -> Result<Vec<u8>, AllocError>
    ensures { IfOk result (λ key. key.items ≡ front.now ++ rest.now) }
{
    let mut key = front.to_vec(alloc)?;
    key.extend_from_slice(rest)?;
    Ok(key)
}
