//! Rows of what sessions keep: snapshots, and values before a rollback.
ghost use Rattle.std.specs.Prelude.{◌≡◌, ◌++◌, ℕ, List, Some, true, false, map, IfOk, option_map};
ghost use Rattle.std.specs.FinMap as fin;
ghost use Rattle.std.specs.List.{list_all};
ghost use Rattle.apex_base.specs.declared.records.Part.{Part as PartOf};
ghost use Rattle.apex_base.specs.Sessions.{Ascend};
ghost use Rattle.apex_world.specs.Opened.{opened_boots, opened_sessions};
ghost use Rattle.row_check.specs.KeptRows.{AreEras, HaveBoots};
ghost use Rattle.row_key.specs.Kept.{IsKeptTag};
ghost use Rattle.row_check.specs.RightKept.{FitKeys, place_in, is_kept, is_right_row, are_right_rows, WrongRow};
ghost use Rattle.row_check.specs.RightKept.{has_name_kept, has_kept, have_kept};
ghost use Rattle.row_check.specs.RightRows.{is_value};
ghost use Rattle.row_key.specs.RowBytes.{FitBytes};
ghost use Rattle.row_check.specs.SettledTags.{Tells};

use crate::eras::era_values;
use crate::fronts::{RowAfter, era_front, era_key, joined, rows_after};
use crate::keeping::{has_name, keeps};
use apex_base::{Name, Record, session_of, short_at, u32_at};
use row_key::{PRE_RESTORE, SNAPSHOT, kept_front};
use row_map::Rows;
use std::alloc::{AllocError, Global};

/// What rows are judged by: all rows, the sessions that they open to, what names had before boots, and the tag of the
/// rows that are judged.
#[derive(Drop)]
struct Opening<'a> {
    rows: &'a Rows,
    sessions: &'a [Record],
    values: &'a Rows,
    tag: u8,
}

/// Which of the rows of what sessions keep are those of the world that all rows open to.
#[derive(Clone, Copy)]
pub struct KeptTags {
    /// Tag 7: snapshots.
    pub snapshots: bool,
    /// Tag 8: values before a rollback.
    pub pre_restores: bool,
}

/// Judges the rows of what sessions keep. For n rows it takes n log n steps: it collects what names had before boots,
/// looks up each row of the two tags among these values, and then each value that a session keeps among the rows.
pub fn kept_tags(
    alloc: Global,
    rows: &Rows,
    sessions: &[Record],
    boots: u32,
) -> Result<KeptTags, AllocError>
    // The sessions and the number of boots are those that the rows open to.
    requires sessions { sessions.now ≡ opened_sessions rows.now }
    requires boots { boots ≡ (opened_boots rows.now).0 }
    ensures snapshots { IfOk result (λ tags. Tells rows.now 7 tags.snapshots) }
    ensures pre_restores { IfOk result (λ tags. Tells rows.now 8 tags.pre_restores) }
{
    let values = era_values(alloc, rows, sessions, boots)?;
    let snapshots = Opening {
        rows,
        sessions,
        values: &values,
        tag: SNAPSHOT,
    };
    let pre_restores = Opening {
        rows,
        sessions,
        values: &values,
        tag: PRE_RESTORE,
    };
    Ok(KeptTags {
        snapshots: is_right_kept(alloc, &snapshots)?,
        pre_restores: is_right_kept(alloc, &pre_restores)?,
    })
}

/// Whether the rows of the tag are those of the world that the rows open to.
fn is_right_kept(alloc: Global, opening: &Opening) -> Result<bool, AllocError>
    requires tag { IsKeptTag opening.now.tag }
    requires sessions { opening.now.sessions.now ≡ opened_sessions opening.now.rows.now }
    requires eras { AreEras opening.now.rows.now opening.now.sessions.now (opened_boots opening.now.rows.now).0
        opening.now.values.now }
    requires boots { HaveBoots opening.now.sessions.now }
    ensures { IfOk result (Tells opening.now.rows.now opening.now.tag) }
{
    if !are_right_rows(alloc, opening)? {
        return Ok(false);
    }
    have_kept(alloc, opening)
}

/// Whether each row of the tag is one that its session keeps.
fn are_right_rows(alloc: Global, opening: &Opening) -> Result<bool, AllocError>
    requires ascend { Ascend opening.now.sessions.now }
    requires tag { IsKeptTag opening.now.tag }
    ensures right { IfOk result (λ right. right ≡ true → FitKeys (fin.entries opening.now.rows.now)
        × (are_right_rows opening.now.sessions.now opening.now.values.now opening.now.tag
        (fin.entries opening.now.rows.now) ≡ true)) }
    ensures wrong { IfOk result (λ right. right ≡ false → WrongRow opening.now.sessions.now opening.now.values.now
        opening.now.tag (fin.entries opening.now.rows.now)) }
{
    for (key, value) in opening.rows.by_key() {
        if !is_right_row(alloc, opening, key.as_slice(), value.as_slice())? {
            return Ok(false);
        }
    }
    Ok(true)
}

/// Whether a row is of another tag, or one that its session keeps.
fn is_right_row(
    alloc: Global,
    opening: &Opening,
    key: &[u8],
    value: &[u8],
) -> Result<bool, AllocError>
    requires ascend { Ascend opening.now.sessions.now }
    requires tag { IsKeptTag opening.now.tag }
    ensures right { IfOk result (λ right. right ≡ is_right_row opening.now.sessions.now opening.now.values.now
        opening.now.tag key.now value.now) }
    ensures fits { FitBytes key.now }
{
    match key {
        [first, rest @ ..] if *first == opening.tag => { is_kept(alloc, opening, rest, value) }
        _ => Ok(true),
    }
}

/// What a key says without its tag: a session that is there, a name, and both the name and the key.
#[derive(Drop)]
struct Place<'a> {
    session: &'a Record,
    name: &'a [u8],
    key: &'a [u8],
    under: &'a [u8],
}

/// The place of a key, by what follows the tag, if its session is there.
fn place_in<'a>(sessions: &'a [Record], rest: &'a [u8]) -> Option<Place<'a>>
    requires { Ascend sessions.now }
    ensures { option_map (λ p. (p.session.now, p.name.now, p.key.now, p.under.now)) result
        ≡ place_in sessions.now rest.now }
{
    let Some((id, under)) = u32_at(rest) else {
        return None;
    };
    let Some((name, key)) = short_at(under) else {
        return None;
    };
    let Some(session) = session_of(sessions, u64::from(id)) else {
        return None;
    };
    Some(Place {
        session,
        name,
        key,
        under,
    })
}

/// Whether the session of a key keeps this value there, by what follows the tag.
fn is_kept(alloc: Global, opening: &Opening, rest: &[u8], value: &[u8]) -> Result<bool, AllocError>
    requires ascend { Ascend opening.now.sessions.now }
    requires tag { IsKeptTag opening.now.tag }
    ensures { IfOk result (λ kept. kept ≡ is_kept opening.now.sessions.now opening.now.values.now opening.now.tag
        (place_in opening.now.sessions.now rest.now) value.now) }
{
    match place_in(opening.sessions, rest) {
        Some(place) => is_kept_at(alloc, opening, &place, value),
        None => Ok(false),
    }
}

/// The same, by the place of the key.
fn is_kept_at(
    alloc: Global,
    opening: &Opening,
    place: &Place,
    value: &[u8],
) -> Result<bool, AllocError>
    requires ascend { Ascend opening.now.sessions.now }
    requires tag { IsKeptTag opening.now.tag }
    ensures { IfOk result (λ kept. kept ≡ is_kept opening.now.sessions.now opening.now.values.now opening.now.tag
        (Some (place.now.session.now, place.now.name.now, place.now.key.now, place.now.under.now)) value.now) }
{
    let keeps = keeps(opening.sessions, opening.tag, place.session);
    let named = has_name(place.session, place.name);
    if keeps && named {
        let key = era_key(alloc, place.session.activation, place.under)?;
        Ok(is_value(opening.values.get(key.as_slice()), value))
    } else {
        Ok(false)
    }
}

/// Whether there is a value, and it is this.
fn is_value(found: Option<&[u8]>, value: &[u8]) -> bool
    ensures { result ≡ is_value (option_map (λ v. v.now) found.entry) value.now }
{
    match found {
        Some(other) => other == value,
        None => false,
    }
}

/// Whether each session that keeps values under the tag has them in its rows. It ends at the first value that isn't
/// there, and each that is has a row of its own.
fn have_kept(alloc: Global, opening: &Opening) -> Result<bool, AllocError>
    requires ascend { Ascend opening.now.sessions.now }
    requires tag { IsKeptTag opening.now.tag }
    ensures { IfOk result (λ have. have ≡ have_kept opening.now.sessions.now opening.now.values.now opening.now.tag
        opening.now.rows.now opening.now.sessions.now) }
{
    for r in opening.sessions {
        if !has_kept(alloc, opening, r)? {
            return Ok(false);
        }
    }
    Ok(true)
}

/// Whether a session has in its rows what it keeps under the tag, if it keeps values there.
fn has_kept(alloc: Global, opening: &Opening, r: &Record) -> Result<bool, AllocError>
    requires ascend { Ascend opening.now.sessions.now }
    requires tag { IsKeptTag opening.now.tag }
    ensures { IfOk result (λ has. has ≡ has_kept opening.now.sessions.now opening.now.values.now opening.now.tag
        opening.now.rows.now r.now) }
{
    if keeps(opening.sessions, opening.tag, r) {
        has_names_kept(alloc, opening, r)
    } else {
        Ok(true)
    }
}

/// Whether a session's rows have all that its names had before its boot.
fn has_names_kept(alloc: Global, opening: &Opening, r: &Record) -> Result<bool, AllocError>
    ensures { IfOk result (λ has. has ≡ list_all (λ (p : PartOf). has_name_kept opening.now.sessions.now opening.now.values.now
        opening.now.tag opening.now.rows.now r.now p.name) r.now.parts) }
{
    for p in r.parts.as_slice() {
        if !has_name_kept(alloc, opening, r, &p.name)? {
            return Ok(false);
        }
    }
    Ok(true)
}

/// Whether a session's rows have all that a name had before its boot.
fn has_name_kept(
    alloc: Global,
    opening: &Opening,
    r: &Record,
    name: &Name,
) -> Result<bool, AllocError>
    ensures { IfOk result (λ has. has ≡ has_name_kept opening.now.sessions.now opening.now.values.now opening.now.tag
        opening.now.rows.now r.now name.now) }
{
    let before = era_front(alloc, r.activation, name)?;
    let values = rows_after(alloc, opening.values, before.as_slice())?;
    let front = kept_front(alloc, opening.tag, r.id, name)?;
    has_values(alloc, opening.rows, front.as_slice(), values.as_slice())
}

/// Whether the rows have each of these values under its key after the front.
fn has_values(
    alloc: Global,
    rows: &Rows,
    front: &[u8],
    values: &[RowAfter],
) -> Result<bool, AllocError>
    ensures { IfOk result (λ has. has ≡ list_all (λ (row : List ℕ × List ℕ). is_value (fin.get rows.now (front.now ++ row.0)) row.1)
        (map (λ row. (row.key.now, row.value.now)) values.now)) }
{
    for row in values {
        if !has_value(alloc, rows, front, row)? {
            return Ok(false);
        }
    }
    Ok(true)
}

/// Whether the rows have a value under its key after the front.
fn has_value(alloc: Global, rows: &Rows, front: &[u8], row: &RowAfter) -> Result<bool, AllocError>
    ensures { IfOk result (λ has. has ≡ is_value (fin.get rows.now (front.now ++ row.now.key.now)) row.now.value.now) }
{
    let key = joined(alloc, front, row.key)?;
    Ok(is_value(rows.get(key.as_slice()), row.value))
}
