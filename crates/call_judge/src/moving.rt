//! The session that a call moves, and the session moved: `docs/calls.md`.
ghost use Rattle.std.specs.Prelude.{◌≡◌, ℕ, IfOk, IfErr};
ghost use Rattle.apex_base.specs.Sessions.{Ascend};
ghost use Rattle.apex_world.specs.Advance.{move_session};
ghost use Rattle.apex_world.specs.Stepped.{refused};
ghost use Rattle.apex_world.specs.World.{World};
ghost use Rattle.call_judge.specs.Moving.{Moves};

use crate::tables::Tables;
use apex_base::{Listed, Move, Record, Refusal, RollbackState, SessionId, State, moved, place_of};
use std::alloc::{AllocError, Global};

/// The place of the session that a call moves, and the state that it leads to.
pub(crate) fn moving(tables: &Tables, id: SessionId, by: Move) -> Result<(usize, State), Refusal>
    requires { Ascend tables.now.sessions.items }
    ensures moves { IfOk result (λ to. Moves tables.now.sessions.items id by to.0 to.1) }
    ensures refused { IfErr result (λ why. (w : World) (clock : ℕ) → tables.now.sessions.items ≡ w.sessions
        → move_session w clock id by ≡ refused w why) }
{
    let Ok(place) = place_of(&tables.sessions, id) else {
        return Err(Refusal::NoSession { id });
    };
    let state = tables.sessions[place].state;
    let next = moved(state, by).ok_or(Refusal::BadState { state })?;
    Ok((place, next))
}

/// The session in another state, and its rollback in another state too.
pub(crate) fn session_in(
    alloc: Global,
    r: &Record,
    state: State,
    rollback: Option<RollbackState>,
) -> Result<Record, AllocError>
    ensures { IfOk result (λ s. s ≡ record r.now { state = state; rollback = rollback }) }
{
    let children = r.children.as_slice().to_vec(alloc)?;
    let parts = r.parts.as_slice().to_vec(alloc)?;
    Ok(Record {
        id: r.id,
        children: Listed::of(children),
        kind: r.kind,
        parts: Listed::of(parts),
        print: r.print,
        state,
        cause: r.cause,
        activation: r.activation,
        rollback,
        moment: r.moment,
    })
}
