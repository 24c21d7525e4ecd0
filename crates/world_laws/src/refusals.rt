//! The law of refusals.
ghost use Rattle.std.specs.Prelude.{◌≡◌};
ghost use Rattle.apex_base.specs.declared.refusal.Refusal.{Refusal};
ghost use Rattle.apex_world.specs.declared.calls.Call.{Call};
ghost use Rattle.apex_world.specs.declared.calls.Reply.TheVariants as reply;
ghost use Rattle.apex_world.specs.Step.{step};
ghost use Rattle.apex_world.specs.World.{World};

/// A refused call changes nothing, the clock included.
pub fn refusals_change_nothing()
    ensures { (w : World) (call : Call) (refusal : Refusal) → (step w call).reply ≡ reply.Refused refusal → (step w call).world ≡ w }
{}
