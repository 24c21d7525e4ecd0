//! The object behind its turn, and what a caller holds.
ghost use Rattle.std.specs.Prelude.{◌≡◌, ◌<◌, ◌≤◌};
ghost use Rattle.call_turn.specs.Rule.{IsIdle};

use crate::plays::{Key, Law};
use crate::{OneThread, View};
use atomic_table::{Seat, Table};
use std::alloc::Global;

/// One caller's place.
#[derive(Drop)]
pub struct Pass<O: OneThread> {
    pub(crate) seat: Seat<O, View<O::Order, O::Answer, O::Start>>,
    pub(crate) lane: u32,
    pub(crate) step: u32,
    ghost idle: { IsIdle lane step seat.me },
}

/// The list given to `close` isn't the passes that `open` gave, each once.
#[derive(Drop)]
pub struct NotAll {
    pub given: usize,
}

/// There was no memory.
#[derive(Drop)]
pub struct NoMemory;

/// The object, behind its turn.
#[derive(Drop)]
pub struct Turn<O: OneThread> {
    pub(crate) table: Table<O, View<O::Order, O::Answer, O::Start>, Key<O>, Law<O>, Global>,
    pub(crate) lanes: u32,
    ghost sized: { (table.shared.table_id.words ≡ 3) × (table.shared.table_id.slots ≡ 1) },
    ghost counted: { (lanes ≡ table.shared.key.lanes) × (0 < lanes) × (lanes ≤ 8) },
}
