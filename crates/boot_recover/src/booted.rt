//! What a boot is to do, by rows: `docs/rows.md`, "After a boot".
ghost use Rattle.std.specs.Prelude.{◌≡◌, ◌∷◌, [], ◌++◌, List, IfOk};
ghost use Rattle.std.specs.Cmp.Lexicographic.{slice_cmp};
ghost use Rattle.std.specs.List.Sorted.{IsStrictlySortedBy};
ghost use Rattle.std.specs.Ordering.{nat_cmp};
ghost use Rattle.row_codec.specs.Batch.{keys_of};
ghost use Rattle.row_codec.specs.declared.batch.Row.{Row};
ghost use Rattle.package_store.specs.Latest.{AreHeld};
ghost use Rattle.package_store.specs.Settled.{HaveParts};
ghost use Rattle.world_laws.specs.Invariance.{IsOrderOf};
ghost use Rattle.apex_world.specs.Opened.{opened_boots, opened_sessions};
ghost use Rattle.apex_world.specs.World.{World};
ghost use Rattle.boot_recover.specs.Booted.{boots_change, IsBooted, IsSettling};
ghost use Rattle.stored_world.specs.Stored.{IsStored};

use crate::becoming::{Noted, boot_sessions};
use crate::choosing::Selection;
use crate::windows::{boots_value, note_boot};
use apex_base::{Bytes, Listed, Millis, Mounter, Pick, Record};
use apex_world::{BootOrder, BootReply};
use package_store::{HeldByName, held_by_name, rows_are_those_shown, settle_held, settled_by_key};
use row_check::OpenedRows;
use row_codec::Row;
use row_key::boots_key;
use row_map::Rows;
use std::alloc::{AllocError, Global};

/// The reply to a boot, the rows that it changes, and the sessions and the active set after it.
#[derive(Drop)]
pub struct JudgedBoot {
    pub reply: BootReply,
    pub rows: Vec<Row>,
    pub sessions: Vec<Record>,
    pub active: Vec<Pick>,
}

/// What a boot of the device is to do whose rows these are. `opened` is what they open to. Nothing is changed. Fails
/// only if memory runs out.
pub fn judge_boot<M: Mounter>(
    alloc: Global,
    rows: &Rows,
    opened: OpenedRows,
    order: &BootOrder,
    mounter: &M,
) -> Result<JudgedBoot, AllocError>
    requires stored { (w : World) × (IsStored rows.now w × IsOrderOf w order.now) }
    requires alone { order.now.observers ≡ [] }
    requires sessions { opened.sessions.items ≡ opened_sessions rows.now }
    requires boots { (opened.boots.count, opened.boots.moments.items) ≡ opened_boots rows.now }
    ensures judged { (w : World) → IsStored rows.now w → IsOrderOf w order.now
        → IfOk result (λ judged. IsBooted judged rows.now w order.now (M.mounting mounter.now)) }

    // The row of boots stands first, then records by their ids, then names and files.
    ensures ascending { IfOk result
        (λ judged. IsStrictlySortedBy (slice_cmp nat_cmp) (keys_of judged.rows.items)) }
{
    let boots = opened.boots;
    let mut sessions = opened.sessions;
    let number = boots.count + 1;
    let mut moments = boots.moments;
    let boot_loop = note_boot(alloc, &mut moments, order.time)?;
    let selection = Selection {
        mounter,
        rows,
        order,
        number,
    };
    let mut noted = boot_noted(alloc, number, &moments)?;
    boot_sessions(alloc, &mut sessions, &selection, &mut noted)?;
    let held = held_by_name(alloc, &sessions)?;
    let active = selection.choose(alloc, &held)?;
    let batch = with_settled(alloc, noted.rows, rows, &sessions, &held)?;
    settled_by_key();
    let told = active.to_vec(alloc)?;
    Ok(JudgedBoot {
        reply: BootReply {
            number,
            changes: Listed::of(noted.changes),
            active: Listed::of(told),
            boot_loop,
        },
        rows: batch,
        sessions,
        active,
    })
}

/// No session is noted yet, and the row of boots is written.
fn boot_noted(alloc: Global, number: u32, moments: &[Millis]) -> Result<Noted, AllocError>
    ensures changes { IfOk result (λ noted. noted.changes.items ≡ []) }
    ensures rows { IfOk result (λ noted. noted.rows.items ≡ boots_change number moments.now ∷ []) }
{
    let key = Listed::of(Vec::from_slice(alloc, &boots_key())?);
    let value = Some(Bytes::of(boots_value(alloc, number, moments)?));
    let mut rows = Vec::with_capacity(alloc, 1)?;
    rows.push(Row { key, value })?;
    Ok(Noted {
        changes: Vec::new(alloc),
        rows,
    })
}

/// The rows, and after them those of names and of files that follow from the records of all sessions.
fn with_settled(
    alloc: Global,
    noted: Vec<Row>,
    rows: &Rows,
    sessions: &[Record],
    held: &HeldByName,
) -> Result<Vec<Row>, AllocError>
    requires parts { HaveParts sessions.now }
    requires held { AreHeld sessions.now held.now }
    ensures { IfOk result (λ batch. (settled : List Row) × ((batch.items ≡ noted.items ++ settled)
        × IsSettling rows.now sessions.now settled)) }
{
    let mut settled = settle_held(alloc, rows.by_key(), sessions, held)?;
    rows_are_those_shown();
    let mut batch = noted;
    batch.append(&mut settled)?;
    Ok(batch)
}
