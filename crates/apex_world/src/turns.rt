//! The turns of a run: which boot or call of the script it was, and what became of it.
use crate::calls::{BootReply, Reply};
use apex_base::Listed;

/// What became of a turn. Answered and Kept ones happened; the others changed nothing. Every turn is Answered so far.
#[derive(Clone, Copy, Debug, PartialEq, Eq)]
pub enum Fate {
    Answered,
    Kept,
    Lost,
    Open,
    Closed,
    NoMemory,
    Full,
}

/// A turn. `boot` counts the script's boots from 1, `step` the calls of a lane since that boot from 1; the boot
/// itself has lane 0 and step 0.
#[derive(Clone, Copy, Debug, PartialEq, Eq)]
pub struct TurnRow {
    pub boot: u32,
    pub lane: u32,
    pub step: u32,
    pub fate: Fate,
}

/// Turns in the order of the history, seen as a list.
pub type Turns = Listed<TurnRow>;

/// What a turn shows: the answer of a boot or of a call, or its fate alone.
#[derive(Drop)]
pub enum Shown {
    Booted(BootReply),
    Replied(Reply),
    Fated,
}
