//! The calls of a script as a core takes them.
ghost use Rattle.std.specs.Prelude.{◌≡◌, ◌∷◌, [], IfSome};
ghost use Rattle.apex_world.specs.declared.calls.Call.TheVariants as calls;
ghost use Rattle.apex_world.specs.Calls.{call_at};
ghost use Rattle.apex_world.specs.Playable.{IsBuilt};

use apex_base::SessionId;
use apex_world::{CallRef, SharedModule};
use call_judge::Prepared;
use std::alloc::Global;

/// A call of a script, prepared. No file of its modules is copied.
pub(crate) fn prepared(alloc: Global, call: &CallRef) -> Prepared
    requires built { IsBuilt (call_at call.now) }
    ensures { IfSome result (λ c. c ≡ call_at call.now) }
{
    match call {
        CallRef::Ready { id } => Prepared::ready(*id),
        CallRef::StateOf { id } => Prepared::state_of(*id),
        CallRef::Abort { id } => Prepared::abort(*id),
        CallRef::Success { time, id } => Prepared::success(*time, *id),
        CallRef::Submit {
            id,
            rollback,
            parts,
            ..
        } => match parts {
            [part] => prepared_submit(alloc, *id, *rollback, part),
            _ => unreachable!(),
        },
        CallRef::Revert
        | CallRef::Commit { .. }
        | CallRef::Put { .. }
        | CallRef::Drop { .. }
        | CallRef::Get { .. }
        | CallRef::Watch { .. }
        | CallRef::Report { .. } => unreachable!(),
    }
}

/// A submit of one module without children, prepared. It stands apart, so that no other call makes room for it.
#[inline(never)]
fn prepared_submit(alloc: Global, id: SessionId, rollback: bool, part: &SharedModule) -> Prepared
    ensures { IfSome result (λ c. c ≡ calls.Submit id [] rollback (part.now ∷ [])) }
{
    match part.share() {
        Ok(part) => Prepared::submit(alloc, id, rollback, part),
        Err(_) => Prepared::without_memory(),
    }
}
