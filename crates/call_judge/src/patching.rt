//! What a call changes in the tables: memory for it is taken first, so that nothing fails once something changed.
ghost use Rattle.std.specs.Prelude.{◌<◌, ◌^◌, OnOk};
ghost use Rattle.call_judge.specs.Judged.{HasRoom, IsPatched, IsPlaced, IsSame, units_after};

use crate::judged::Patch;
use crate::tables::Tables;
use crate::unfinished::{enter_names, leave_names, make_room_under};
use crate::units::kind_units;
use std::alloc::AllocError;

/// Takes the memory that a patch needs.
pub fn make_room(tables: &mut Tables, patch: &Patch) -> Result<(), AllocError>
    ensures room { OnOk result (HasRoom patch.now tables.new) }
    ensures same { IsSame tables.old tables.new }
{
    match patch {
        Patch::New { session, .. } => {
            tables.sessions.reserve(1)?;
            make_room_under(&mut tables.unfinished, session.get().parts.as_slice())
        }
        Patch::Nothing | Patch::Session { .. } | Patch::Success { .. } => Ok(()),
    }
}

/// Changes the tables. It takes no memory.
pub fn apply(tables: &mut Tables, patch: Patch, weight: u64)
    requires placed { IsPlaced patch tables.old.sessions.items }
    requires room { HasRoom patch tables.old }
    requires few { units_after patch tables.old.units < 2 ^ 32 }
    ensures { IsPatched patch weight tables.old tables.new }
{
    tables.weight = weight;
    match patch {
        Patch::Nothing => {}
        Patch::Session { place, session } => {
            leave_names(&mut tables.unfinished, session.get());
            tables.sessions[place] = session.into_inner();
        }
        Patch::Success {
            place,
            session,
            clock,
        } => {
            leave_names(&mut tables.unfinished, session.get());
            tables.sessions[place] = session.into_inner();
            tables.clock = clock;
        }
        Patch::New { place, session } => {
            let r = session.get();
            tables.units += kind_units(r.kind);
            enter_names(&mut tables.unfinished, r.parts.as_slice(), r.id);
            let _ = tables.sessions.insert(place, session.into_inner());
        }
    }
}
