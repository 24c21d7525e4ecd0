//! Rows opened as a whole: the world that they open to, or the least tag at which they aren't the rows of that world.
ghost use Rattle.std.specs.Prelude.{◌≡◌, [], None, IfOk, OnOk, IfErr};
ghost use Rattle.std.specs.FinMap as fin;
ghost use Rattle.apex_base.specs.declared.numbers.Scale.{Scale};
ghost use Rattle.apex_world.specs.Opened.{opened_boots, opened_sessions};
ghost use Rattle.row_check.specs.BadRows.{opened_rows};
ghost use Rattle.row_check.specs.WrongTags.{AreBad};

use crate::boots::{Boots, opened_boots};
use crate::sessions::opened_sessions;
use crate::tags::wrong_tag;
use apex_base::{Record, Why};
use row_map::Rows;
use std::alloc::Global;

/// What rows open to.
#[derive(Drop)]
pub struct OpenedRows {
    /// The sessions, ascending by id.
    pub sessions: Vec<Record>,
    /// How many boots there were, and the last moments.
    pub boots: Boots,
}

/// The rows of this tag aren't those of the world that all rows open to, and those of each lesser tag are.
#[derive(Clone, Copy, Drop, Debug, PartialEq, Eq)]
pub struct BadRows {
    pub tag: u8,
}

/// Opens rows, if they are the rows of the world that they open to.
pub fn open_rows(alloc: Global, rows: &Rows) -> Result<OpenedRows, Why<BadRows>>
    // No row has the empty key, as none in a batch has.
    requires keyed { fin.get rows.now [] ≡ None }
    ensures sessions { IfOk result (λ opened. opened.sessions.items ≡ opened_sessions rows.now) }
    ensures boots { IfOk result (λ opened. (opened.boots.count, opened.boots.moments.items) ≡ opened_boots rows.now) }
    ensures right { OnOk result ((scale : Scale) → opened_rows rows.now scale ≡ rows.now) }
    ensures bad { IfErr result (AreBad rows.now) }
{
    let opened = OpenedRows {
        sessions: opened_sessions(alloc, rows)?,
        boots: opened_boots(alloc, rows)?,
    };
    match wrong_tag(alloc, rows, &opened)? {
        Some(tag) => Err(Why::Fault(BadRows { tag })),
        None => Ok(opened),
    }
}
