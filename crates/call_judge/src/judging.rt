//! What each call is to do: `docs/calls.md`.
ghost use Rattle.std.specs.Prelude.{◌≡◌, ◌∷◌, [], IfOk};
ghost use Rattle.row_codec.specs.Batch.{keys_of};
ghost use Rattle.std.specs.Cmp.Lexicographic.{slice_cmp};
ghost use Rattle.std.specs.Ordering.{nat_cmp};
ghost use Rattle.std.specs.List.Sorted.{IsStrictlySortedBy};
ghost use Rattle.session_record.specs.Room.{HasRoom};
ghost use Rattle.apex_world.specs.declared.calls.Call.TheVariants as calls;
ghost use Rattle.apex_world.specs.declared.calls.Reply.TheVariants.{Done};
ghost use Rattle.apex_world.specs.World.{World};
ghost use Rattle.call_judge.specs.declared.judged.Patch.TheVariants.{Session};
ghost use Rattle.call_judge.specs.Stands.{StandsFor};
ghost use Rattle.call_judge.specs.Ending.{record_change};
ghost use Rattle.call_judge.specs.Judged.{IsJudged, IsPlaced};
ghost use Rattle.call_judge.specs.Moving.{in_state};
ghost use Rattle.call_judge.specs.Prepared.{call_of};
ghost use Rattle.apex_world.specs.Playable.{IsBuilt};

use crate::ending::{judge_abort, judge_success};
use crate::judged::{Judged, Patch};
use crate::moving::{moving, session_in};
use crate::prepared::{CheckedCall, OtherCall};
use crate::sessions::session_with;
use crate::submitting::judge_single;
use crate::tables::Tables;
use apex_base::{Move, Record, Refusal, SessionId, State};
use apex_world::Reply;
use row_map::Rows;
use std::alloc::{AllocError, Global};
use stored_world::record_rows;

/// Ready: the session's record changes where it was VERIFIED. What judges a call stands apart from all that judge another,
/// so that no call makes room for the answers of another.
#[inline(never)]
fn judge_ready(
    alloc: Global,
    rows: &Rows,
    tables: &Tables,
    id: SessionId,
) -> Result<Judged, AllocError>
    requires stands { (w : World) × StandsFor rows.now tables.now w }
    ensures judged { (w : World) → StandsFor rows.now tables.now w → IfOk result (λ j. IsJudged j rows.now w (calls.Ready id)) }
    ensures placed { IfOk result (λ j. IsPlaced j.patch tables.now.sessions.items) }
    ensures ascending { IfOk result (λ j. IsStrictlySortedBy (slice_cmp nat_cmp) (keys_of j.rows.items)) }
{
    let (place, next) = match moving(tables, id, Move::Ready) {
        Ok(to) => to,
        Err(why) => return Ok(Judged::quiet(alloc, Reply::Refused(why))),
    };
    let r = &tables.sessions[place];
    if r.state.is_staged() {
        return Ok(Judged::quiet(alloc, Reply::Done));
    }
    change_state(alloc, place, r, next)
}

/// The record of the session at a place changes its state, and nothing else of it. It stands apart, so that a call which
/// changes nothing makes no room for it.
#[inline(never)]
fn change_state(alloc: Global, place: usize, r: &Record, next: State) -> Result<Judged, AllocError>
    requires room { HasRoom (in_state r.now next) }
    ensures reply { IfOk result (λ j. j.reply ≡ Done) }
    ensures rows { IfOk result (λ j. j.rows.items ≡ record_change (in_state r.now next) ∷ []) }
    ensures patch { IfOk result (λ j. j.patch ≡ Session place (in_state r.now next)) }
    ensures ascending { IfOk result (λ j. IsStrictlySortedBy (slice_cmp nat_cmp) (keys_of j.rows.items)) }
{
    let session = session_in(alloc, r, next, r.rollback)?;
    let rows = record_rows(alloc, &session)?;
    let patch = Patch::session(alloc, place, session)?;
    Ok(Judged {
        reply: Reply::Done,
        rows,
        patch,
    })
}

/// The state of a session, or of a child's parent.
#[inline(never)]
fn judge_state(
    alloc: Global,
    rows: &Rows,
    tables: &Tables,
    id: SessionId,
) -> Result<Judged, AllocError>
    requires stands { (w : World) × StandsFor rows.now tables.now w }
    ensures judged { (w : World) → StandsFor rows.now tables.now w → IfOk result (λ j. IsJudged j rows.now w (calls.StateOf id)) }
    ensures placed { IfOk result (λ j. IsPlaced j.patch tables.now.sessions.items) }
    ensures ascending { IfOk result (λ j. IsStrictlySortedBy (slice_cmp nat_cmp) (keys_of j.rows.items)) }
{
    match session_with(&tables.sessions, id) {
        None => Ok(Judged::quiet(alloc, Reply::Refused(Refusal::NoSession { id }))),
        Some(r) => Ok(Judged::quiet(alloc, Reply::State(r.state, r.rollback))),
    }
}

/// What a call is to do, in each world that the rows and the tables stand for.
pub fn judge(
    alloc: Global,
    rows: &Rows,
    tables: &Tables,
    call: &CheckedCall,
) -> Result<Judged, AllocError>
    requires built { IsBuilt (call_of call.now) }
    requires stands { (w : World) × StandsFor rows.now tables.now w }
    ensures judged { (w : World) → StandsFor rows.now tables.now w → IfOk result (λ j. IsJudged j rows.now w (call_of call.now)) }
    ensures placed { IfOk result (λ j. IsPlaced j.patch tables.now.sessions.items) }
    ensures ascending { IfOk result (λ j. IsStrictlySortedBy (slice_cmp nat_cmp) (keys_of j.rows.items)) }
{
    match call {
        CheckedCall::Ready { id } => judge_ready(alloc, rows, tables, *id),
        CheckedCall::StateOf { id } => judge_state(alloc, rows, tables, *id),
        CheckedCall::Submit(submit) => judge_single(alloc, rows, tables, submit.get()),
        CheckedCall::Abort { id } => judge_abort(alloc, rows, tables, *id),
        CheckedCall::Success { time, id } => judge_success(alloc, rows, tables, *time, *id),
        CheckedCall::Other(call) => match call.get() {
            OtherCall::Revert
            | OtherCall::Commit { .. }
            | OtherCall::Put { .. }
            | OtherCall::Drop { .. }
            | OtherCall::Get { .. }
            | OtherCall::Watch { .. }
            | OtherCall::Report { .. } => unreachable!(),
        },
    }
}
