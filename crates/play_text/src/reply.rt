//! What a call is answered with: `docs/formats/text.md`.
ghost use Rattle.std.specs.Prelude.{◌≡◌, ◌++◌, codes, OnOk};
ghost use Rattle.apex_world.specs.Text.{state_text, value_text, rollback_words, observer_text, id_words, reply_text};

use crate::refusal::push_refusal;
use crate::states::{rollback_text, state_text};
use crate::words::{push_ids, push_name, push_word_id, push_words};
use apex_base::{Name, RollbackState, SessionId, State};
use apex_world::Reply;
use std::alloc::{AllocError, Global};

#[tactic(auto, using(std::proofs::lemmas::Grind::common_steps), unfolding(apex_world::specs::Text::reply_text))]
pub fn push_reply(line: &mut Vec<u8>, alloc: Global, reply: &Reply) -> Result<(), AllocError>
    ensures { OnOk result (line.new.items ≡ line.old.items ++ reply_text reply.now) }
{
    match reply {
        Reply::Done => line.extend_from_slice(b"ok"),
        Reply::Committed(id) => push_word_id(line, b"committed ", *id),
        Reply::Value(bytes) => {
            line.extend_from_slice(b"value ")?;
            push_value(line, alloc, bytes.as_slice())
        }
        Reply::State(state, rollback) => push_state(line, *state, *rollback),
        Reply::Noted => line.extend_from_slice(b"noted"),
        Reply::Triggered(observer, ids) => {
            push_trigger(line, b"triggered ", observer, ids.as_slice())
        }
        Reply::Refused(refusal) => {
            line.extend_from_slice(b"refused ")?;
            push_refusal(line, refusal)
        }
    }
}

/// Bytes in lower-case hexadecimal, or `-` for none.
fn push_value(line: &mut Vec<u8>, alloc: Global, bytes: &[u8]) -> Result<(), AllocError>
    ensures { OnOk result (line.new.items ≡ line.old.items ++ value_text bytes.now) }
{
    if bytes.is_empty() {
        return line.extend_from_slice(b"-");
    }
    let text = hex::encode(alloc, bytes)?;
    line.extend_from_slice(text.as_bytes())
}

fn push_rollback_words(
    line: &mut Vec<u8>,
    rollback: Option<RollbackState>,
) -> Result<(), AllocError>
    ensures { OnOk result (line.new.items ≡ line.old.items ++ rollback_words rollback) }
{
    match rollback {
        None => Ok(()),
        Some(state) => push_words(line, b" rollback ", rollback_text(state)),
    }
}

fn push_state(
    line: &mut Vec<u8>,
    state: State,
    rollback: Option<RollbackState>,
) -> Result<(), AllocError>
    ensures { OnOk result (line.new.items ≡ line.old.items ++ (codes "state " ++ state_text state ++ rollback_words rollback)) }
{
    line.extend_from_slice(b"state ")?;
    line.extend_from_slice(state_text(state))?;
    push_rollback_words(line, rollback)?;
    Ok(())
}

fn push_observer(line: &mut Vec<u8>, observer: &Option<Name>) -> Result<(), AllocError>
    ensures { OnOk result (line.new.items ≡ line.old.items ++ observer_text observer.now) }
{
    match observer {
        None => line.extend_from_slice(b"-"),
        Some(name) => push_name(line, name),
    }
}

/// An observer that acts, and the ids that it commits.
pub fn push_trigger(
    line: &mut Vec<u8>,
    word: &[u8],
    observer: &Option<Name>,
    ids: &[SessionId],
) -> Result<(), AllocError>
    ensures { OnOk result (line.new.items ≡ line.old.items ++ (word.now ++ observer_text observer.now ++ id_words ids.now)) }
{
    line.extend_from_slice(word)?;
    push_observer(line, observer)?;
    push_ids(line, ids)?;
    Ok(())
}
