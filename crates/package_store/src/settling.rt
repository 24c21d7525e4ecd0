//! Rows that follow from the records of sessions.
ghost use Rattle.std.specs.Prelude.{◌≡◌, ℕ, List, IfOk, OnOk, if◌then◌else◌};
ghost use Rattle.std.specs.Cmp.Lexicographic.{slice_cmp};
ghost use Rattle.std.specs.FinMap as fin;
ghost use Rattle.std.specs.List.{AllByRecursion};
ghost use Rattle.std.specs.List.Sorted.{IsStrictlySortedBy};
ghost use Rattle.std.specs.Ordering.{nat_cmp};
ghost use Rattle.std.specs.Str.{bytes_eq};
ghost use Rattle.row_codec.specs.Batch.{keys_of};
ghost use Rattle.row_map.specs.Rows.{changed, rows_of};
ghost use Rattle.package_store.specs.Keeping.{stays_among};
ghost use Rattle.package_store.specs.Latest.{AreHeld};
ghost use Rattle.package_store.specs.Named.{note_row, resettled};
ghost use Rattle.package_store.specs.Settled.{settled_value, IsChange, HaveParts};

use crate::changes::Changes;
use crate::earlier::EarlierTargets;
use crate::held::{HeldByName, held_by_name};
use crate::kept::KeptParts;
use crate::naming::name_changes;
use apex_base::{Bytes, Record};
use row_codec::Row;
use row_key::{ACTIVE, BACKUP, FILE, file_at};
use std::alloc::{AllocError, Global};
use std::collections::BTreeMap;

/// The changes that lead to what the records of all sessions say: which target each name holds, which one it held
/// before a session that can still be undone, and which modules are kept.
pub fn settle(
    alloc: Global,
    rows: &BTreeMap<Vec<u8>, Bytes>,
    records: &[Record],
) -> Result<Vec<Row>, AllocError>
    requires { HaveParts records.now }

    // With them each key has its settled value.
    ensures after { IfOk result (λ changes. (key : List ℕ)
        → fin.get (changed (rows_of rows.now.entries) changes.items) key
        ≡ settled_value (rows_of rows.now.entries) records.now key) }

    // They hold exactly what changes, and can stand in a batch.
    ensures exact { IfOk result (λ changes. AllByRecursion (IsChange (rows_of rows.now.entries)) changes.items) }
    ensures ascending { IfOk result (λ changes. IsStrictlySortedBy (slice_cmp nat_cmp) (keys_of changes.items)) }
{
    let held = held_by_name(alloc, records)?;
    settle_held(alloc, rows, records, &held)
}

/// The same, by what all names hold.
pub fn settle_held(
    alloc: Global,
    rows: &BTreeMap<Vec<u8>, Bytes>,
    records: &[Record],
    held: &HeldByName,
) -> Result<Vec<Row>, AllocError>
    requires parts { HaveParts records.now }
    requires held { AreHeld records.now held.now }

    // With them each key has its settled value.
    ensures after { IfOk result (λ changes. (key : List ℕ)
        → fin.get (changed (rows_of rows.now.entries) changes.items) key
        ≡ settled_value (rows_of rows.now.entries) records.now key) }

    // They hold exactly what changes, and can stand in a batch.
    ensures exact { IfOk result (λ changes. AllByRecursion (IsChange (rows_of rows.now.entries)) changes.items) }
    ensures ascending { IfOk result (λ changes. IsStrictlySortedBy (slice_cmp nat_cmp) (keys_of changes.items)) }
{
    let earlier = EarlierTargets::of(alloc, records)?;
    let mut changes = name_changes(alloc, records, held, &earlier)?;
    let kept = KeptParts::by_targets(alloc, records, held, &earlier)?;
    for (key, value) in rows {
        settle_row(alloc, &mut changes, &kept, key, value.as_slice())?;
    }
    changes.into_rows(alloc)
}

fn settle_row(
    alloc: Global,
    changes: &mut Changes,
    kept: &KeptParts,
    key: &[u8],
    value: &[u8],
) -> Result<(), AllocError>
    ensures { OnOk result ((q : List ℕ) → fin.get changes.new q
        ≡ (if bytes_eq q key.now then note_row (stays_among kept.now) key.now value.now (fin.get changes.old key.now)
        else fin.get changes.old q)) }
{
    let [tag, rest @ ..] = key else {
        return Ok(());
    };
    if *tag == ACTIVE || *tag == BACKUP {
        return settle_name(alloc, changes, key, value);
    }
    if *tag == FILE && !file_stays(kept, rest) {
        return changes.put(Vec::from_slice(alloc, key)?, None);
    }
    Ok(())
}

fn settle_name(
    alloc: Global,
    changes: &mut Changes,
    key: &[u8],
    value: &[u8],
) -> Result<(), AllocError>
    ensures { OnOk result ((q : List ℕ) → fin.get changes.new q
        ≡ (if bytes_eq q key.now then resettled (fin.get changes.old key.now) value.now
        else fin.get changes.old q)) }
{
    if !changes.has(key) {
        return changes.put(Vec::from_slice(alloc, key)?, None);
    }
    if changes.is_wanted(key, value) {
        changes.remove(key);
    }
    Ok(())
}

fn file_stays(kept: &KeptParts, rest: &[u8]) -> bool
    ensures { result ≡ stays_among kept.now rest.now }
{
    match file_at(rest) {
        Some(file) => kept.has(file.session, file.part),
        None => true,
    }
}
