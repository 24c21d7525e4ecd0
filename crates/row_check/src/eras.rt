//! What names had before boots, by the rows of what sessions keep: `docs/rows.md`, "Opening".
ghost use Rattle.std.specs.Prelude.{◌≡◌, ◌++◌, ◌&&◌, ◌<◌, ◌^◌, ℕ, List, map, Some, None, IfOk, OnOk, if◌then◌else◌};
ghost use Rattle.std.specs.FinMap as fin;
ghost use Rattle.std.specs.Option.{option_or};
ghost use Rattle.apex_base.specs.Text.{is_name};
ghost use Rattle.row_map.specs.Room.{same_key};
ghost use Rattle.row_check.specs.KeptRows.{is_boot, AreEras, HaveBoots};
ghost use Rattle.row_check.specs.EraSteps.{Adds, kept_of_name, kept_of_parts};
ghost use Rattle.row_check.specs.EraSteps.{kept_of_session, kept_of_all};

use crate::fronts::{era_front, has_rows, joined, rows_after};
use apex_base::{Bytes, Name, Record};
use row_key::{PRE_RESTORE, SNAPSHOT, kept_front};
use row_map::Rows;
use std::alloc::{AllocError, Global};

/// Rows of what sessions keep: all rows, the number of boots that they open to, and the tag of those that count.
#[derive(Drop)]
struct Source<'a> {
    rows: &'a Rows,
    boots: u32,
    tag: u8,
}

/// What names had before boots, each value under the boot, the name and the key. It reads each row of what sessions
/// keep once for each part of its session that has the row's name, and copies each value that counts. A tag
/// that no row has takes one look-up.
pub(crate) fn era_values(
    alloc: Global,
    rows: &Rows,
    sessions: &[Record],
    boots: u32,
) -> Result<Rows, AllocError>
    ensures eras { IfOk result (AreEras rows.now sessions.now boots) }
    ensures boots { OnOk result (HaveBoots sessions.now) }
{
    known_boots(sessions);
    let mut values = Rows::new(alloc);
    let snapshots = Source {
        rows,
        boots,
        tag: SNAPSHOT,
    };
    add_all(alloc, &snapshots, sessions, &mut values)?;
    let pre_restores = Source {
        rows,
        boots,
        tag: PRE_RESTORE,
    };
    add_all(alloc, &pre_restores, sessions, &mut values)?;
    Ok(values)
}

/// States for proofs that the boots that activated these sessions are within the range of boots. It changes nothing.
fn known_boots(sessions: &[Record])
    ensures { HaveBoots sessions.now }
{
    for r in sessions {
        known_boot(r.activation);
    }
}

fn known_boot(boot: u32)
    ensures { boot < 2 ^ 32 }
{}

/// Adds what sessions keep under the tag, where there was no value before.
#[tactic(auto, using(crate::proofs::EraParts::adds_none))]
fn add_all(
    alloc: Global,
    source: &Source,
    sessions: &[Record],
    values: &mut Rows,
) -> Result<(), AllocError>
    ensures { OnOk result (Adds values.old values.new (kept_of_all source.now.rows.now source.now.boots source.now.tag sessions.now)) }
{
    if has_rows(alloc, source.rows, &[source.tag])? {
        add_sessions(alloc, source, sessions, values)
    } else {
        Ok(())
    }
}

/// Adds what each session keeps.
fn add_sessions(
    alloc: Global,
    source: &Source,
    sessions: &[Record],
    values: &mut Rows,
) -> Result<(), AllocError>
    ensures { OnOk result (Adds values.old values.new (kept_of_all source.now.rows.now source.now.boots source.now.tag sessions.now)) }
{
    for r in sessions {
        add_session(alloc, source, r, values)?;
    }
    Ok(())
}

/// Adds what a session keeps, if a boot activated it.
fn add_session(
    alloc: Global,
    source: &Source,
    r: &Record,
    values: &mut Rows,
) -> Result<(), AllocError>
    ensures { OnOk result (Adds values.old values.new (kept_of_session source.now.rows.now source.now.boots source.now.tag r.now)) }
{
    if is_boot(source.boots, r.activation) {
        add_names(alloc, source, r, values)
    } else {
        Ok(())
    }
}

/// Adds what a session keeps of the names of its parts.
fn add_names(
    alloc: Global,
    source: &Source,
    r: &Record,
    values: &mut Rows,
) -> Result<(), AllocError>
    ensures { OnOk result (Adds values.old values.new (kept_of_parts source.now.rows.now source.now.tag r.now r.now.parts)) }
{
    for p in r.parts.as_slice() {
        add_name(alloc, source, r, &p.name, values)?;
    }
    Ok(())
}

/// Adds what a session keeps of a name.
fn add_name(
    alloc: Global,
    source: &Source,
    r: &Record,
    name: &Name,
    values: &mut Rows,
) -> Result<(), AllocError>
    ensures { OnOk result (Adds values.old values.new (kept_of_name source.now.rows.now source.now.tag r.now name.now)) }
{
    let kept = kept_front(alloc, source.tag, r.id, name)?;
    let front = era_front(alloc, r.activation, name)?;
    for row in rows_after(alloc, source.rows, kept.as_slice())?.as_slice() {
        add_value(alloc, front.as_slice(), row.key, row.value, values)?;
    }
    Ok(())
}

/// Adds a value under a key after this front, if that is one and has no value.
fn add_value(
    alloc: Global,
    front: &[u8],
    key: &[u8],
    value: &[u8],
    values: &mut Rows,
) -> Result<(), AllocError>
    ensures { OnOk result ((q : List ℕ) → fin.get values.new q ≡ option_or (fin.get values.old q)
        (if is_name key.now && same_key q (front.now ++ key.now) then Some value.now else None)) }
{
    if is_name(key) {
        add(values, joined(alloc, front, key)?, value.to_vec(alloc)?)
    } else {
        Ok(())
    }
}

/// Adds a value at a key that has none.
fn add(values: &mut Rows, key: Vec<u8>, value: Vec<u8>) -> Result<(), AllocError>
    ensures { OnOk result ((q : List ℕ) → fin.get values.new q ≡ option_or (fin.get values.old q)
        (if same_key q key.items then Some value.items else None)) }
{
    if values.has(key.as_slice()) {
        Ok(())
    } else {
        values.put(key, Bytes::of(value))
    }
}

fn is_boot(boots: u32, boot: u32) -> bool
    ensures { result ≡ is_boot boots boot }
{
    boot != 0 && boot <= boots
}

fn is_name(text: &[u8]) -> bool
    ensures { result ≡ is_name text.now }
{
    Name::read(text).is_some()
}
