//! Writing a module.
ghost use Rattle.std.specs.Prelude.{◌≡◌, ◌<◌, ℕ, List, IfOk};
ghost use Rattle.std.specs.Cmp.Lexicographic.{slice_cmp};
ghost use Rattle.std.specs.FinMap as fin;
ghost use Rattle.std.specs.List.{AllByRecursion};
ghost use Rattle.std.specs.List.Sorted.{IsStrictlySortedBy};
ghost use Rattle.std.specs.Ordering.{nat_cmp};
ghost use Rattle.apex_base.specs.Keys.{RowMap};
ghost use Rattle.row_codec.specs.Batch.{IsRow, keys_of};
ghost use Rattle.row_map.specs.Rows.{changed};
ghost use Rattle.package_store.specs.Placed.{file_change, file_changes, placed_value};

use apex_base::{Bytes, FilePath, Listed, Module, SessionId};
use row_codec::Row;
use row_key::file_key;
use std::alloc::{AllocError, Global};

/// The rows of the module that this part of a session submitted: one for each file.
pub fn put(
    alloc: Global,
    session: SessionId,
    part: u32,
    files: &Module,
) -> Result<Vec<Row>, AllocError>
    requires { part < 256 }
    ensures rows { IfOk result (λ changes. changes.items ≡ file_changes session part files.now) }

    // With them each key of that part has the module's file, if there is one, and all else stays.
    ensures after { IfOk result (λ changes. (rows : RowMap) (key : List ℕ) → fin.get (changed rows changes.items) key
        ≡ placed_value rows session part files.now key) }

    // They can stand in a batch.
    ensures ascending { IfOk result (λ changes. IsStrictlySortedBy (slice_cmp nat_cmp) (keys_of changes.items)) }
    ensures fit { IfOk result (λ changes. AllByRecursion IsRow changes.items) }
{
    let mut changes = Vec::new(alloc);
    for (path, content) in files.files() {
        changes.push(file_row(alloc, session, part, path, content)?)?;
    }
    Ok(changes)
}

fn file_row(
    alloc: Global,
    session: SessionId,
    part: u32,
    path: &FilePath,
    content: &Bytes,
) -> Result<Row, AllocError>
    requires { part < 256 }
    ensures { IfOk result (λ row. row ≡ file_change session part (path.now, content.now)) }
{
    let key = Listed::of(file_key(alloc, session, part, path.as_bytes())?);
    let value = content.share(alloc)?;
    Ok(Row {
        key,
        value: Some(value),
    })
}
