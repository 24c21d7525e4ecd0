//! A submit of one module: `docs/calls.md`, "Submit".
ghost use Rattle.std.specs.Prelude.{◌≡◌, ◌≤◌, ◌+◌, ◌∷◌, [], false, None, IfOk};
ghost use Rattle.row_codec.specs.Batch.{keys_of};
ghost use Rattle.std.specs.Cmp.Lexicographic.{slice_cmp};
ghost use Rattle.std.specs.Ordering.{nat_cmp};
ghost use Rattle.std.specs.List.Sorted.{IsStrictlySortedBy};
ghost use Rattle.apex_base.specs.Numbers.{scale_units, scale_file_weight};
ghost use Rattle.apex_base.specs.Sessions.{Ascend, session_of};
ghost use Rattle.apex_world.specs.declared.calls.Call.TheVariants as calls;
ghost use Rattle.apex_world.specs.Playable.{IsBuilt};
ghost use Rattle.apex_world.specs.Submit.{or_else};
ghost use Rattle.apex_world.specs.World.{World};
ghost use Rattle.call_judge.specs.Stands.{StandsFor};
ghost use Rattle.call_judge.specs.declared.prepared.CheckedCall.TheVariants.{Submit};
ghost use Rattle.call_judge.specs.Judged.{IsJudged, IsPlaced};
ghost use Rattle.call_judge.specs.Prepared.{call_of};
ghost use Rattle.call_judge.specs.Submitting.{IsEntered, plain_session, submitted_rows, too_heavy, too_many};
ghost use Rattle.session_record.specs.Room.{HasRoom};

use crate::admitting::admit;
use crate::checked::CheckedModule;
use crate::judged::{Judged, Patch};
use crate::prepared::CheckedSubmit;
use crate::tables::Tables;
use apex_base::{
    Kind, Listed, Millis, Part, Print, Record, Refusal, SessionId, State, Target, Why, place_of,
};
use apex_world::{Package, Reply, SharedModule};
use package_store::put;
use row_codec::Row;
use row_map::Rows;
use std::alloc::{AllocError, Global};
use stored_world::record_rows;

/// A submit as lines make it so far: of one module, without children and rollback.
#[inline(never)]
pub(crate) fn judge_single(
    alloc: Global,
    rows: &Rows,
    tables: &Tables,
    submit: &CheckedSubmit,
) -> Result<Judged, AllocError>
    requires built { IsBuilt (call_of (Submit submit.now)) }
    requires stands { (w : World) × StandsFor rows.now tables.now w }
    ensures judged { (w : World) → StandsFor rows.now tables.now w → IfOk result (λ j. IsJudged j rows.now w (call_of (Submit submit.now))) }
    ensures placed { IfOk result (λ j. IsPlaced j.patch tables.now.sessions.items) }
    ensures ascending { IfOk result (λ j. IsStrictlySortedBy (slice_cmp nat_cmp) (keys_of j.rows.items)) }
{
    match submit.parts.as_slice() {
        [part] => judge_submit(alloc, rows, tables, submit.id, part),
        _ => unreachable!(),
    }
}

/// Submit: a new session's record and the files of its module, where nothing refuses them.
fn judge_submit(
    alloc: Global,
    rows: &Rows,
    tables: &Tables,
    id: SessionId,
    part: &CheckedModule,
) -> Result<Judged, AllocError>
    requires stands { (w : World) × StandsFor rows.now tables.now w }
    ensures judged { (w : World) → StandsFor rows.now tables.now w → IfOk result (λ j. IsJudged j rows.now w (calls.Submit id [] false (part.now ∷ []))) }
    ensures placed { IfOk result (λ j. IsPlaced j.patch tables.now.sessions.items) }
    ensures ascending { IfOk result (λ j. IsStrictlySortedBy (slice_cmp nat_cmp) (keys_of j.rows.items)) }
{
    let p = match admit(alloc, tables, id, part) {
        Ok(p) => p,
        Err(Why::Fault(refusal)) => return Ok(Judged::quiet(alloc, Reply::Refused(refusal))),
        Err(Why::NoMemory) => return Err(AllocError),
    };
    if let Some(refusal) = over_scale(tables, part.content().weight()) {
        return Ok(Judged::quiet(alloc, Reply::Refused(refusal)));
    }
    enter(alloc, tables, id, &p)
}

/// Why one more session, with a module of this weight, would be over the scale, if it would be.
fn over_scale(tables: &Tables, weight: u64) -> Option<Refusal>
    requires few { tables.now.units ≤ scale_units tables.now.scale }
    requires light { tables.now.weight ≤ scale_file_weight tables.now.scale }
    requires small { weight ≤ 67125248 }
    ensures { result ≡ or_else (too_many tables.now.scale (tables.now.units + 1))
        (too_heavy tables.now.scale (tables.now.weight + weight)) }
{
    match sessions_full(tables) {
        Some(refusal) => Some(refusal),
        None => store_full(tables, weight),
    }
}

fn sessions_full(tables: &Tables) -> Option<Refusal>
    requires { tables.now.units ≤ scale_units tables.now.scale }
    ensures { result ≡ too_many tables.now.scale (tables.now.units + 1) }
{
    let most = tables.scale.units();
    let units = tables.units + 1;
    if units > most {
        Some(Refusal::SessionsFull { units })
    } else {
        None
    }
}

fn store_full(tables: &Tables, more: u64) -> Option<Refusal>
    requires light { tables.now.weight ≤ scale_file_weight tables.now.scale }
    requires small { more ≤ 67125248 }
    ensures { result ≡ too_heavy tables.now.scale (tables.now.weight + more) }
{
    let most = tables.scale.file_weight();
    let weight = tables.weight + more;
    if weight > most {
        Some(Refusal::StoreFull { weight })
    } else {
        None
    }
}

/// How the new session enters with its module.
fn enter(alloc: Global, tables: &Tables, id: SessionId, p: &Package) -> Result<Judged, AllocError>
    requires ascend { Ascend tables.now.sessions.items }
    requires free { session_of tables.now.sessions.items id ≡ None }
    ensures { IfOk result
        (λ j. IsEntered j tables.now (plain_session id p.now tables.now.image.print) p.now.content) }
{
    let Err(place) = place_of(&tables.sessions, id) else {
        unreachable!()
    };
    let session = plain_session(alloc, id, p, &tables.image.get().print)?;
    let rows = submitted_rows(alloc, &session, &p.content)?;
    let patch = Patch::new(alloc, place, session)?;
    Ok(Judged {
        reply: Reply::Done,
        rows,
        patch,
    })
}

/// The session of a plain submit of one module.
fn plain_session(
    alloc: Global,
    id: SessionId,
    p: &Package,
    print: &Print,
) -> Result<Record, AllocError>
    ensures { IfOk result (λ r. r ≡ plain_session id p.now print.now) }
{
    let part = Part {
        name: p.name,
        version: Some(p.version),
        target: Target::Module {
            session: id,
            part: 0,
            version: p.version,
        },
    };
    Ok(Record {
        id,
        children: Listed::new(alloc),
        kind: Kind::Plain,
        parts: Listed::one(alloc, part)?,
        print: *print,
        state: State::Verified,
        cause: None,
        activation: 0,
        rollback: None,
        moment: Millis::zero(),
    })
}

/// The row of the session's record, and those of its module's files.
fn submitted_rows(
    alloc: Global,
    session: &Record,
    content: &SharedModule,
) -> Result<Vec<Row>, AllocError>
    requires { HasRoom session.now }
    ensures rows { IfOk result (λ rows. rows.items ≡ submitted_rows session.now content.now) }
    ensures ascending { IfOk result (λ rows. IsStrictlySortedBy (slice_cmp nat_cmp) (keys_of rows.items)) }
{
    let directory = content.directory(alloc)?;
    let files = put(alloc, session.id, 0, directory.get())?;
    let mut rows = record_rows(alloc, session)?;
    rows.extend(files)?;
    Ok(rows)
}
