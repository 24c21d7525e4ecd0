//! How a session ends by a call: abort and success, `docs/calls.md`.
ghost use Rattle.std.specs.Prelude.{◌≡◌, max, IfOk};
ghost use Rattle.std.specs.FinMap as fin;
ghost use Rattle.apex_base.specs.Ranges.{IsMillis};
ghost use Rattle.session_record.specs.Room.{HasPartNumber, HasRoom};
ghost use Rattle.row_codec.specs.Batch.{keys_of};
ghost use Rattle.std.specs.Cmp.Lexicographic.{slice_cmp};
ghost use Rattle.std.specs.Ordering.{nat_cmp};
ghost use Rattle.std.specs.List.Sorted.{IsStrictlySortedBy};
ghost use Rattle.apex_world.specs.declared.calls.Call.TheVariants as calls;
ghost use Rattle.apex_world.specs.World.{World};
ghost use Rattle.call_judge.specs.Stands.{StandsFor};
ghost use Rattle.call_judge.specs.Ending.{row_before, spelled, success_batch};
ghost use Rattle.call_judge.specs.Judged.{IsJudged, IsPlaced};
ghost use Rattle.call_judge.specs.Taken.{first_of};

use crate::files::take_files;
use crate::judged::{Judged, Patch};
use crate::moving::{moving, session_in};
use crate::tables::Tables;
use apex_base::{Millis, Move, Part, Record, SessionId, Target};
use apex_world::Reply;
use row_codec::Row;
use row_key::backup_key;
use row_map::Rows;
use session_record::target_at;
use std::alloc::{AllocError, Global};
use stored_world::record_rows;

/// Abort: the session's record changes where it was VERIFIED or STAGED, and its modules go.
#[inline(never)]
pub(crate) fn judge_abort(
    alloc: Global,
    rows: &Rows,
    tables: &Tables,
    id: SessionId,
) -> Result<Judged, AllocError>
    requires stands { (w : World) × StandsFor rows.now tables.now w }
    ensures judged { (w : World) → StandsFor rows.now tables.now w → IfOk result (λ j. IsJudged j rows.now w (calls.Abort id)) }
    ensures placed { IfOk result (λ j. IsPlaced j.patch tables.now.sessions.items) }
    ensures ascending { IfOk result (λ j. IsStrictlySortedBy (slice_cmp nat_cmp) (keys_of j.rows.items)) }
{
    let (place, next) = match moving(tables, id, Move::Abort) {
        Ok(to) => to,
        Err(why) => return Ok(Judged::quiet(alloc, Reply::Refused(why))),
    };
    let r = &tables.sessions[place];
    let aborted = session_in(alloc, r, next, r.rollback)?;
    let mut batch = record_rows(alloc, &aborted)?;
    take_files(alloc, rows, first_target(r.parts.as_slice()), &mut batch)?;
    let patch = Patch::session(alloc, place, aborted)?;
    Ok(Judged {
        reply: Reply::Done,
        rows: batch,
        patch,
    })
}

/// Success: the session's record changes where it was ACTIVATED, and what its names held before goes.
#[inline(never)]
pub(crate) fn judge_success(
    alloc: Global,
    rows: &Rows,
    tables: &Tables,
    time: Millis,
    id: SessionId,
) -> Result<Judged, AllocError>
    requires stands { (w : World) × StandsFor rows.now tables.now w }
    ensures judged { (w : World) → StandsFor rows.now tables.now w → IfOk result (λ j. IsJudged j rows.now w (calls.Success time id)) }
    ensures placed { IfOk result (λ j. IsPlaced j.patch tables.now.sessions.items) }
    ensures ascending { IfOk result (λ j. IsStrictlySortedBy (slice_cmp nat_cmp) (keys_of j.rows.items)) }
{
    let (place, next) = match moving(tables, id, Move::Success) {
        Ok(to) => to,
        Err(why) => return Ok(Judged::quiet(alloc, Reply::Refused(why))),
    };
    let clock = later_of(tables.clock, time);
    let r = &tables.sessions[place];
    let session = session_in(alloc, r, next, r.rollback)?;
    let batch = if r.state.is_success() {
        Vec::new(alloc)
    } else {
        success_rows(alloc, rows, &session)?
    };
    let patch = Patch::success(alloc, place, session, clock)?;
    Ok(Judged {
        reply: Reply::Done,
        rows: batch,
        patch,
    })
}

/// What changes where a session succeeds: its record, the row of what its name held before, and the files of that.
fn success_rows(alloc: Global, rows: &Rows, session: &Record) -> Result<Vec<Row>, AllocError>
    requires room { HasRoom session.now }
    requires numbered { HasPartNumber (row_before rows.now session.now) }
    ensures rows { IfOk result (λ batch. batch.items ≡ success_batch rows.now session.now) }
{
    let mut batch = record_rows(alloc, session)?;
    let [p, ..] = session.parts.as_slice() else {
        return Ok(batch);
    };
    let key = backup_key(alloc, &p.name)?;
    let target = target_in(rows, key.as_slice());
    batch.push(Row { key, value: None })?;
    take_files(alloc, rows, target, &mut batch)?;
    Ok(batch)
}

/// The target that the row of a key says; preinstalled where there is no row.
fn target_in(rows: &Rows, key: &[u8]) -> Target
    ensures { result ≡ spelled (fin.get rows.now key.now) }
{
    let Some(value) = rows.get(key) else {
        return Target::Preinstalled;
    };
    match target_at(value) {
        Some((target, _)) => target,
        None => Target::Preinstalled,
    }
}

/// The later one of two moments.
fn later_of(a: Millis, b: Millis) -> Millis
    ensures later { result ≡ max a b }
    ensures range { IsMillis result }
{
    if a.number() < b.number() { b } else { a }
}

/// The target of the first part. A session without children has no other.
fn first_target(parts: &[Part]) -> Target
    ensures { result ≡ first_of (λ p. p.target) parts.now }
{
    match parts {
        [p, ..] => p.target,
        [] => Target::Preinstalled,
    }
}
