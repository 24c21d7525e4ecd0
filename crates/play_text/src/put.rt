//! Puts the lines of a turn, each by one put.
ghost use Rattle.std.specs.Prelude.{◌++◌, flat_map};
ghost use Rattle.apex_world.specs.declared.turns.Shown.TheVariants.{Booted};
ghost use Rattle.apex_world.specs.Text.{boot_line, change_line, pick_line, loop_text, turn_lines};
ghost use Rattle.play_text.specs.Put.{HasPutLines};

use crate::lines::{
    push_boot_line, push_change_line, push_end_line, push_fate_line, push_loop_line,
    push_pick_line, push_reply_line,
};
use crate::mark::LaneMark;
use apex_base::{Name, Pick, Sink};
use apex_world::{BootReply, Changed, IdList, Reply, Shown, TurnRow};
use std::alloc::{AllocError, AllocFailed, Global};

/// Why a line wasn't put.
#[derive(Clone, Copy, Debug, PartialEq, Eq)]
pub enum PutFailed {
    /// The sink failed: its count of faults rose.
    Sink,
    /// Memory ran out before the line was put.
    NoMemory,
}

impl From<AllocError> for PutFailed {
    ghost use Rattle.std.specs.Prelude.{◌≡◌};
    ghost use Rattle.play_text.specs.declared.put.PutFailed.TheVariants.{NoMemory};

    ghost from_gives = { λ _ e. e ≡ NoMemory };

    fn from(_: AllocError) -> PutFailed {
        PutFailed::NoMemory
    }
}

impl<T: Drop> From<AllocFailed<T>> for PutFailed {
    ghost use Rattle.std.specs.Prelude.{◌≡◌};
    ghost use Rattle.play_text.specs.declared.put.PutFailed.TheVariants.{NoMemory};

    ghost from_gives = { λ _ e. e ≡ NoMemory };

    fn from(_: AllocFailed<T>) -> PutFailed {
        PutFailed::NoMemory
    }
}

/// Puts the lines of turns. What one line leaves for the next is kept here: its buffer, and the mark that the lines of
/// its lane begin with.
#[derive(Drop)]
pub struct TurnText {
    line: Vec<u8>,
    mark: LaneMark,
}

impl TurnText {
    ghost use Rattle.apex_world.specs.declared.turns.Shown.TheVariants.{Booted, Replied, Fated};
    ghost use Rattle.apex_world.specs.Text.{turn_lines, end_line};
    ghost use Rattle.play_text.specs.Put.{HasPutLines};

    /// Nothing has been put yet.
    pub fn new(alloc: Global) -> Self {
        TurnText {
            line: Vec::new(alloc),
            mark: LaneMark::new(alloc),
        }
    }

    /// Puts the lines of a turn: those of an answered boot, the line of an answered call, or that of its fate. Where a
    /// put fails, or memory runs out, the sink has gained a front of them. So it is with each call here.
    pub fn turn_lines<K: Sink>(
        &mut self,
        alloc: Global,
        sink: &mut K,
        row: &TurnRow,
        shown: &Shown,
    ) -> Result<(), PutFailed>
        ensures { HasPutLines K.held K.faults result sink.old sink.new (turn_lines row.now shown.now) }
    {
        match shown {
            Shown::Booted(reply) => self.boot_lines(sink, row, reply),
            Shown::Replied(reply) => self.reply_line(alloc, sink, row, reply),
            Shown::Fated => self.fate_line(sink, row),
        }
    }

    /// Puts the lines of an answered boot.
    pub fn boot_lines<K: Sink>(
        &mut self,
        sink: &mut K,
        row: &TurnRow,
        reply: &BootReply,
    ) -> Result<(), PutFailed>
        ensures { HasPutLines K.held K.faults result sink.old sink.new (turn_lines row.now (Booted reply.now)) }
    {
        put_boot(sink, &mut self.line, &mut self.mark, row, reply)
    }

    /// Puts the line of an answered call.
    #[tactic(auto, unfolding(apex_world::specs::Text::turn_lines))]
    pub fn reply_line<K: Sink>(
        &mut self,
        alloc: Global,
        sink: &mut K,
        row: &TurnRow,
        reply: &Reply,
    ) -> Result<(), PutFailed>
        ensures { HasPutLines K.held K.faults result sink.old sink.new (turn_lines row.now (Replied reply.now)) }
    {
        self.line.clear();
        push_reply_line(&mut self.line, &mut self.mark, alloc, row, reply)?;
        put_line(sink, &self.line)
    }

    /// Puts the line of a turn that shows its fate alone.
    #[tactic(auto, unfolding(apex_world::specs::Text::turn_lines))]
    pub fn fate_line<K: Sink>(&mut self, sink: &mut K, row: &TurnRow) -> Result<(), PutFailed>
        ensures { HasPutLines K.held K.faults result sink.old sink.new (turn_lines row.now Fated) }
    {
        self.line.clear();
        push_fate_line(&mut self.line, &mut self.mark, row)?;
        put_line(sink, &self.line)
    }

    /// Puts the last line of a text that has these turns.
    pub fn end_line<K: Sink>(&mut self, sink: &mut K, turns: &[TurnRow]) -> Result<(), PutFailed>
        ensures { HasPutLines K.held K.faults result sink.old sink.new (end_line turns.now) }
    {
        self.line.clear();
        push_end_line(&mut self.line, turns)?;
        put_line(sink, &self.line)
    }
}

/// The lines of an answered boot.
fn put_boot<K: Sink>(
    sink: &mut K,
    line: &mut Vec<u8>,
    mark: &mut LaneMark,
    row: &TurnRow,
    reply: &BootReply,
) -> Result<(), PutFailed>
    ensures { HasPutLines K.held K.faults result sink.old sink.new (turn_lines row.now (Booted reply.now)) }
{
    put_boot_line(sink, line, mark, row, reply.number)?;
    put_changes(sink, line, reply.changes.as_slice())?;
    put_picks(sink, line, reply.active.as_slice())?;
    put_loop(sink, line, &reply.boot_loop)
}

fn put_boot_line<K: Sink>(
    sink: &mut K,
    line: &mut Vec<u8>,
    mark: &mut LaneMark,
    row: &TurnRow,
    number: u32,
) -> Result<(), PutFailed>
    ensures { HasPutLines K.held K.faults result sink.old sink.new (boot_line row.now number) }
{
    line.clear();
    push_boot_line(line, mark, row, number)?;
    put_line(sink, line)
}

fn put_changes<K: Sink>(
    sink: &mut K,
    line: &mut Vec<u8>,
    changes: &[Changed],
) -> Result<(), PutFailed>
    ensures { HasPutLines K.held K.faults result sink.old sink.new (flat_map change_line changes.now) }
{
    for changed in changes {
        put_change(sink, line, changed)?;
    }
    Ok(())
}

fn put_change<K: Sink>(sink: &mut K, line: &mut Vec<u8>, changed: &Changed) -> Result<(), PutFailed>
    ensures { HasPutLines K.held K.faults result sink.old sink.new (change_line changed.now) }
{
    line.clear();
    push_change_line(line, changed)?;
    put_line(sink, line)
}

fn put_picks<K: Sink>(sink: &mut K, line: &mut Vec<u8>, picks: &[Pick]) -> Result<(), PutFailed>
    ensures { HasPutLines K.held K.faults result sink.old sink.new (flat_map pick_line picks.now) }
{
    for pick in picks {
        put_pick(sink, line, pick)?;
    }
    Ok(())
}

fn put_pick<K: Sink>(sink: &mut K, line: &mut Vec<u8>, pick: &Pick) -> Result<(), PutFailed>
    ensures { HasPutLines K.held K.faults result sink.old sink.new (pick_line pick.now) }
{
    line.clear();
    push_pick_line(line, pick)?;
    put_line(sink, line)
}

fn put_loop<K: Sink>(
    sink: &mut K,
    line: &mut Vec<u8>,
    trigger: &Option<(Option<Name>, IdList)>,
) -> Result<(), PutFailed>
    ensures { HasPutLines K.held K.faults result sink.old sink.new (loop_text trigger.now) }
{
    if trigger.is_none() {
        return Ok(());
    }
    line.clear();
    push_loop_line(line, trigger)?;
    put_line(sink, line)
}

fn put_line<K: Sink>(sink: &mut K, line: &[u8]) -> Result<(), PutFailed>
    ensures { HasPutLines K.held K.faults result sink.old sink.new line.now }
{
    match sink.put(line) {
        Ok(()) => Ok(()),
        Err(_) => Err(PutFailed::Sink),
    }
}
