//! Why a call is refused: `docs/formats/text.md`.
ghost use Rattle.std.specs.Prelude.{◌≡◌, ◌++◌, OnOk};
ghost use Rattle.apex_world.specs.Text.{refusal_text};

use crate::faults::push_fault;
use crate::states::{rollback_text, state_text};
use crate::words::{push_word_id, push_word_name, push_word_number, push_words};
use apex_base::Refusal;
use std::alloc::AllocError;

#[tactic(auto, using(std::proofs::lemmas::Grind::common_steps), unfolding(apex_world::specs::Text::refusal_text))]
pub fn push_refusal(line: &mut Vec<u8>, refusal: &Refusal) -> Result<(), AllocError>
    ensures { OnOk result (line.new.items ≡ line.old.items ++ refusal_text refusal.now) }
{
    match refusal {
        Refusal::IdRange { id } => push_word_id(line, b"id-range ", *id),
        Refusal::IdTaken { id } => push_word_id(line, b"id-taken ", *id),
        Refusal::Parts { count } => push_word_number(line, b"parts ", u64::from(*count)),
        Refusal::Module { part, fault } => {
            push_word_number(line, b"part ", u64::from(*part))?;
            line.extend_from_slice(b" ")?;
            push_fault(line, fault.get())
        }
        Refusal::TwiceNamed { name } => push_word_name(line, b"twice-named ", name),
        Refusal::NotPreinstalled { name } => push_word_name(line, b"not-preinstalled ", name),
        Refusal::KeyDiffers { name } => push_word_name(line, b"key-differs ", name),
        Refusal::Overlap { name, id } => {
            push_word_name(line, b"overlap ", name)?;
            push_word_id(line, b" ", *id)
        }
        Refusal::Downgrade {
            name,
            active,
            given,
        } => {
            push_word_name(line, b"downgrade ", name)?;
            push_word_number(line, b" ", active.number())?;
            push_word_number(line, b" ", given.number())
        }
        Refusal::SessionsFull { units } => {
            push_word_number(line, b"sessions-full ", u64::from(*units))
        }
        Refusal::StoreFull { weight } => push_word_number(line, b"store-full ", *weight),
        Refusal::NoSession { id } => push_word_id(line, b"no-session ", *id),
        Refusal::BadState { state } => push_words(line, b"bad-state ", state_text(*state)),
        Refusal::NothingToRevert => line.extend_from_slice(b"nothing-to-revert"),
        Refusal::NoRollback { id } => push_word_id(line, b"no-rollback ", *id),
        Refusal::NotAvailable { state } => {
            push_words(line, b"rollback-state ", rollback_text(*state))
        }
        Refusal::UnknownModule { name } => push_word_name(line, b"unknown-module ", name),
        Refusal::DataFull { weight } => push_word_number(line, b"data-full ", *weight),
        Refusal::NoKey { key } => push_word_name(line, b"no-key ", key),
        Refusal::NoObserver { name } => push_word_name(line, b"no-observer ", name),
    }
}
