//! The laws of worlds of plain sessions.
ghost use Rattle.std.specs.Prelude.{◌≡◌, ℕ, [], false, max, List};
ghost use Rattle.apex_base.specs.declared.moves.Move.TheVariants as step_of;
ghost use Rattle.apex_base.specs.declared.moves.Move.{Move};
ghost use Rattle.apex_base.specs.declared.numbers.Scale.{Scale};
ghost use Rattle.apex_base.specs.declared.numbers.SessionId.{SessionId};
ghost use Rattle.apex_base.specs.Modules.{FileMap};
ghost use Rattle.apex_world.specs.declared.calls.BootOrder.{BootOrder};
ghost use Rattle.apex_world.specs.Boot.{boot_world, boot_reply};
ghost use Rattle.apex_world.specs.Selection.{Mounts};
ghost use Rattle.apex_world.specs.Step.{success, submit, move_session};
ghost use Rattle.apex_world.specs.World.{World, empty_world};
ghost use Rattle.world_facts.specs.Plain.{IsPlain, plain_boot_world, plain_boot_reply};

/// In a world of plain sessions a success is a move, and a boot without observers is what is left of it.
pub fn plain_worlds_do_less()
    ensures success { (w : World) → IsPlain w → (time : ℕ) (id : SessionId) → success w time id ≡ move_session w (max w.clock time) id step_of.Success }
    ensures world { (w : World) → IsPlain w → (order : BootOrder) → order.observers ≡ [] → (mounts : Mounts) → boot_world w order mounts ≡ plain_boot_world w order mounts }
    ensures reply { (w : World) → IsPlain w → (order : BootOrder) → order.observers ≡ [] → (mounts : Mounts) → boot_reply w order mounts ≡ plain_boot_reply w order mounts }
{}

/// A world of plain sessions stays one, by boots without observers and by the calls that make nothing else.
pub fn plain_worlds_stay_plain()
    ensures empty { (scale : Scale) → IsPlain (empty_world scale) }
    ensures boots { (w : World) → IsPlain w → (order : BootOrder) → order.observers ≡ [] → (mounts : Mounts) → IsPlain (boot_world w order mounts) }
    ensures moves { (w : World) → IsPlain w → (clock : ℕ) (id : SessionId) (m : Move) → IsPlain (move_session w clock id m).world }
    ensures submits { (w : World) → IsPlain w → (id : SessionId) (children : List SessionId) (parts : List FileMap) → IsPlain (submit w id children false parts).world }
{}
