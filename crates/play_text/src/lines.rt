//! The lines of a turn: `docs/formats/text.md`. Each call adds to the end of a line.
ghost use Rattle.std.specs.Prelude.{◌≡◌, ◌++◌, OnOk};
ghost use Rattle.apex_world.specs.Text.{cause_words, change_line, pick_line, loop_text, turn_mark, boot_line, reply_line, fate_text, fate_line, end_line};

use crate::mark::LaneMark;
use crate::reply::{push_reply, push_trigger};
use crate::states::{place_text, push_cause, state_text};
use crate::words::{push_number, push_word_id, push_word_name, push_word_number};
use apex_base::{Cause, Name, Pick};
use apex_world::{Changed, Fate, IdList, Reply, TurnRow};
use std::alloc::{AllocError, Global};

/// The first line of an answered boot.
#[tactic(auto, using(std::proofs::lemmas::Grind::common_steps), unfolding(apex_world::specs::Text::boot_line))]
pub fn push_boot_line(
    line: &mut Vec<u8>,
    mark: &mut LaneMark,
    row: &TurnRow,
    number: u32,
) -> Result<(), AllocError>
    ensures { OnOk result (line.new.items ≡ line.old.items ++ boot_line row.now number) }
{
    push_mark(line, mark, row)?;
    line.extend_from_slice(b"boot ")?;
    push_number(line, u64::from(number))?;
    line.extend_from_slice(b"\n")
}

/// The line of a session that a boot changed.
#[tactic(auto, using(std::proofs::lemmas::Grind::common_steps), unfolding(apex_world::specs::Text::change_line))]
pub fn push_change_line(line: &mut Vec<u8>, changed: &Changed) -> Result<(), AllocError>
    ensures { OnOk result (line.new.items ≡ line.old.items ++ change_line changed.now) }
{
    push_word_id(line, b"session ", changed.id)?;
    line.extend_from_slice(b" ")?;
    line.extend_from_slice(state_text(changed.state))?;
    push_cause_words(line, &changed.cause)?;
    line.extend_from_slice(b"\n")
}

/// The line of a name of the active set.
#[tactic(auto, using(std::proofs::lemmas::Grind::common_steps), unfolding(apex_world::specs::Text::pick_line))]
pub fn push_pick_line(line: &mut Vec<u8>, pick: &Pick) -> Result<(), AllocError>
    ensures { OnOk result (line.new.items ≡ line.old.items ++ pick_line pick.now) }
{
    match pick.chosen {
        None => {
            push_word_name(line, b"missing ", &pick.name)?;
        }
        Some((version, place)) => {
            push_word_name(line, b"active ", &pick.name)?;
            push_word_number(line, b" ", version.number())?;
            line.extend_from_slice(place_text(place))?;
        }
    }
    line.extend_from_slice(b"\n")
}

/// The line of a boot loop that triggered.
pub fn push_loop_line(
    line: &mut Vec<u8>,
    trigger: &Option<(Option<Name>, IdList)>,
) -> Result<(), AllocError>
    ensures { OnOk result (line.new.items ≡ line.old.items ++ loop_text trigger.now) }
{
    match trigger {
        None => Ok(()),
        Some((observer, ids)) => {
            push_trigger(line, b"loop ", observer, ids.as_slice())?;
            line.extend_from_slice(b"\n")
        }
    }
}

/// The line of an answered call.
#[tactic(auto, using(std::proofs::lemmas::Grind::common_steps), unfolding(apex_world::specs::Text::reply_line))]
pub fn push_reply_line(
    line: &mut Vec<u8>,
    mark: &mut LaneMark,
    alloc: Global,
    row: &TurnRow,
    reply: &Reply,
) -> Result<(), AllocError>
    ensures { OnOk result (line.new.items ≡ line.old.items ++ reply_line row.now reply.now) }
{
    push_mark(line, mark, row)?;
    push_reply(line, alloc, reply)?;
    line.extend_from_slice(b"\n")
}

fn fate_text(fate: Fate) -> &'static [u8]
    ensures { result.now ≡ fate_text fate }
{
    match fate {
        Fate::Answered => b"",
        Fate::Kept => b"fault kept",
        Fate::Lost => b"fault lost",
        Fate::Open => b"fault open",
        Fate::Closed => b"closed",
        Fate::NoMemory => b"no memory",
        Fate::Full => b"full",
    }
}

/// The line of a turn that shows its fate alone.
#[tactic(auto, using(std::proofs::lemmas::Grind::common_steps), unfolding(apex_world::specs::Text::fate_line))]
pub fn push_fate_line(
    line: &mut Vec<u8>,
    mark: &mut LaneMark,
    row: &TurnRow,
) -> Result<(), AllocError>
    ensures { OnOk result (line.new.items ≡ line.old.items ++ fate_line row.now) }
{
    push_mark(line, mark, row)?;
    line.extend_from_slice(fate_text(row.fate))?;
    line.extend_from_slice(b"\n")
}

/// The last line of a text.
#[tactic(auto, using(std::proofs::lemmas::Grind::common_steps), unfolding(apex_world::specs::Text::end_line))]
pub fn push_end_line(line: &mut Vec<u8>, turns: &[TurnRow]) -> Result<(), AllocError>
    ensures { OnOk result (line.new.items ≡ line.old.items ++ end_line turns.now) }
{
    push_word_number(line, b"end ", turns.len() as u64)?;
    line.extend_from_slice(b"\n")
}

/// The place of a turn, and a space.
#[tactic(auto, using(std::proofs::lemmas::Grind::common_steps), unfolding(apex_world::specs::Text::turn_mark))]
fn push_mark(line: &mut Vec<u8>, mark: &mut LaneMark, row: &TurnRow) -> Result<(), AllocError>
    ensures { OnOk result (line.new.items ≡ line.old.items ++ turn_mark row.now) }
{
    mark.push(line, row)?;
    push_number(line, u64::from(row.step))?;
    line.extend_from_slice(b" ")
}

fn push_cause_words(line: &mut Vec<u8>, cause: &Option<Cause>) -> Result<(), AllocError>
    ensures { OnOk result (line.new.items ≡ line.old.items ++ cause_words cause.now) }
{
    match cause {
        None => Ok(()),
        Some(cause) => {
            line.extend_from_slice(b" ")?;
            push_cause(line, cause)
        }
    }
}
