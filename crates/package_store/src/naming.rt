//! The rows of names that sessions call for, noted as changes of no rows.
ghost use Rattle.std.specs.Prelude.{◌≡◌, ℕ, List, None, IfOk, OnOk};
ghost use Rattle.std.specs.BTreeMap as tree;
ghost use Rattle.std.specs.Cmp.Lexicographic.{slice_cmp};
ghost use Rattle.std.specs.FinMap as fin;
ghost use Rattle.std.specs.Ordering.{nat_cmp};
ghost use Rattle.apex_base.specs.declared.records.Record.{Record as Session};
ghost use Rattle.apex_base.specs.Held.{target_of};
ghost use Rattle.package_store.specs.Earlier.{AreEarlier, AreEnough};
ghost use Rattle.package_store.specs.Latest.{AreHeld};
ghost use Rattle.package_store.specs.Named.{note_active, note_held, note_backup, note_backups};
ghost use Rattle.session_record.specs.Room.{HasPartNumber};
ghost use Rattle.package_store.specs.Settled.{HaveParts, settled};
ghost use Rattle.package_store.specs.Spelled.{change_to};

use crate::changes::Changes;
use crate::earlier::EarlierTargets;
use crate::held::HeldByName;
use apex_base::{Name, Record, Target};
use row_key::{ACTIVE, BACKUP, name_key, target_row};
use std::alloc::{AllocError, Global};

/// What all sessions call for. It goes over them once, and looks up what names held.
pub(crate) fn name_changes(
    alloc: Global,
    records: &[Record],
    held: &HeldByName,
    earlier: &EarlierTargets,
) -> Result<Changes, AllocError>
    requires parts { HaveParts records.now }
    requires held { AreHeld records.now held.now }
    requires earlier { AreEnough records.now earlier.now }
    ensures { IfOk result (λ changes. (key : List ℕ)
        → fin.get changes key ≡ change_to None (settled records.now key None)) }
{
    let mut changes = active_changes(alloc, held)?;
    for r in records {
        if r.state.is_undoable() {
            add_backups(alloc, &mut changes, earlier, r)?;
        }
    }
    Ok(changes)
}

/// What names hold.
fn active_changes(alloc: Global, held: &HeldByName) -> Result<Changes, AllocError>
    requires { (name : List ℕ) → HasPartNumber (target_of (tree.get (slice_cmp nat_cmp) held.now name)) }
    ensures noted { IfOk result (λ changes. (key : List ℕ)
        → fin.get changes key ≡ note_held held.now.entries key) }
    ensures ordered { tree.IsOrdered (slice_cmp nat_cmp) held.now }
{
    let mut changes = Changes::new(alloc);
    for (name, best) in held {
        add_active(alloc, &mut changes, name, best.1)?;
    }
    Ok(changes)
}

fn add_active(
    alloc: Global,
    changes: &mut Changes,
    name: &Name,
    target: Target,
) -> Result<(), AllocError>
    requires { HasPartNumber target }
    ensures { OnOk result ((key : List ℕ)
        → fin.get changes.new key ≡ note_active name.now target key (fin.get changes.old key)) }
{
    let key = name_key(alloc, ACTIVE, name)?;
    let value = target_row(alloc, target)?;
    changes.put(key, Some(value))
}

/// What names held before a session.
fn add_backups(
    alloc: Global,
    changes: &mut Changes,
    earlier: &EarlierTargets,
    r: &Record,
) -> Result<(), AllocError>
    requires { (records : List Session) × HaveParts records × AreEarlier records earlier.now }
    ensures { OnOk result ((records : List Session) → AreEarlier records earlier.now → (key : List ℕ)
        → fin.get changes.new key ≡ note_backups records r.now key (fin.get changes.old key)) }
{
    for p in r.parts.as_slice() {
        add_backup(alloc, changes, earlier, r, &p.name)?;
    }
    Ok(())
}

fn add_backup(
    alloc: Global,
    changes: &mut Changes,
    earlier: &EarlierTargets,
    r: &Record,
    name: &Name,
) -> Result<(), AllocError>
    requires { (records : List Session) × HaveParts records × AreEarlier records earlier.now }
    ensures { OnOk result ((records : List Session) → AreEarlier records earlier.now → (key : List ℕ)
        → fin.get changes.new key ≡ note_backup records r.now name.now key (fin.get changes.old key)) }
{
    let key = name_key(alloc, BACKUP, name)?;
    if changes.has(&key) {
        return Ok(());
    }
    let value = target_row(alloc, earlier.before(r, name))?;
    changes.put(key, Some(value))
}
