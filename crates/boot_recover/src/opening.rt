//! Whether a device can be booted from rows, which may be anybody's: `docs/rows.md`, "A core".
ghost use Rattle.std.specs.Prelude.{◌≡◌, [], None, nat_lt, Decides, IfOk, IfErr, OnOk};
ghost use Rattle.std.specs.FinMap as fin;
ghost use Rattle.std.specs.List.{list_any};
ghost use Rattle.apex_base.specs.declared.why.Why.TheVariants.{Fault};
ghost use Rattle.apex_base.specs.RowSums.{has_tag};
ghost use Rattle.apex_world.specs.Lawful.{Lawful};
ghost use Rattle.apex_world.specs.Opened.{opened, opened_boots, opened_sessions};
ghost use Rattle.row_check.specs.BadRows.{opened_rows};
ghost use Rattle.boot_recover.specs.Refused.{AreBootable, AreRefused, HasBootsLeft};
ghost use Rattle.boot_recover.specs.Refused.{are_simple, is_childless, is_plain, unbuilt_tag};

use apex_base::{Kind, Record, Scale, SessionId, Why};
use row_check::{BadRows, Boots, OpenedRows, open_rows};
use row_key::{DATA, RECORD, WATCH, has_tag};
use row_map::Rows;
use std::alloc::{AllocError, Global};
use world_check::is_lawful;

/// Why rows can't be booted from; or no memory.
pub type BootWhy = Why<BadRows>;

/// A device that had so many boots isn't booted again.
const LAST_BOOT: u32 = 4000000000;

/// What the rows open to, if a device can be booted from them.
pub fn open_bootable(alloc: Global, rows: &Rows, scale: Scale) -> Result<OpenedRows, BootWhy>
    requires keyed { fin.get rows.now [] ≡ None }
    ensures sessions { IfOk result (λ opened. opened.sessions.items ≡ opened_sessions rows.now) }
    ensures boots { IfOk result (λ opened. (opened.boots.count, opened.boots.moments.items) ≡ opened_boots rows.now) }
    ensures good { OnOk result (AreBootable rows.now scale) }
    ensures bad { IfErr result (AreRefused rows.now scale) }
{
    let opened = open_rows(alloc, rows)?;
    let may = may_boot(alloc, rows, &opened, scale)?;
    if !may {
        return Err(refused(0));
    }
    match unbuilt_tag(rows, opened.sessions.as_slice(), scale) {
        Some(tag) => Err(refused(tag)),
        None => Ok(opened),
    }
}

/// Whether the world that these rows open to is lawful and has boots left. They are the rows of that world.
fn may_boot(
    alloc: Global,
    rows: &Rows,
    found: &OpenedRows,
    scale: Scale,
) -> Result<bool, AllocError>
    requires right { opened_rows rows.now scale ≡ rows.now }
    requires sessions { found.now.sessions.items ≡ opened_sessions rows.now }
    requires boots { (found.now.boots.count, found.now.boots.moments.items) ≡ opened_boots rows.now }
    ensures { IfOk result
        (λ may. Decides may (Lawful (opened rows.now scale) × HasBootsLeft (opened rows.now scale))) }
{
    let left = has_boots_left(&found.boots);
    let lawful = is_lawful(alloc, rows, found, scale)?;
    Ok(lawful && left)
}

fn has_boots_left(boots: &Boots) -> bool
    ensures { result ≡ nat_lt boots.now.count 4000000000 }
{
    boots.count < LAST_BOOT
}

fn refused(tag: u8) -> BootWhy
    ensures { result ≡ Fault (record { tag = tag }) }
{
    Why::Fault(BadRows { tag })
}

/// The least tag of rows that no world has so far: of sessions with rollbacks or children, of data, of watches.
fn unbuilt_tag(rows: &Rows, sessions: &[Record], scale: Scale) -> Option<u8>
    requires right { opened_rows rows.now scale ≡ rows.now }
    requires lawful { Lawful (opened rows.now scale) }
    requires sessions { sessions.now ≡ opened_sessions rows.now }
    ensures { result ≡ unbuilt_tag (opened rows.now scale) }
{
    if !are_simple(sessions) {
        Some(RECORD)
    } else if has_rows(rows, DATA) {
        Some(DATA)
    } else if has_rows(rows, WATCH) {
        Some(WATCH)
    } else {
        None
    }
}

fn are_simple(sessions: &[Record]) -> bool
    ensures { result ≡ are_simple sessions.now }
{
    sessions.iter().all(|r| is_plain(r.kind) && is_childless(r.children.as_slice()))
}

fn is_plain(kind: Kind) -> bool
    ensures { result ≡ is_plain kind }
{
    match kind {
        Kind::Plain => true,
        Kind::WithRollback | Kind::RollbackOf(_) => false,
    }
}

fn is_childless(children: &[SessionId]) -> bool
    ensures { result ≡ is_childless children.now }
{
    children.is_empty()
}

/// Whether there is a row of this tag.
fn has_rows(rows: &Rows, tag: u8) -> bool
    ensures { result ≡ list_any (λ row. has_tag tag row.0) (fin.entries rows.now) }
{
    for (key, _) in rows.by_key() {
        if has_tag(key.as_slice(), tag) {
            return true;
        }
    }
    false
}
