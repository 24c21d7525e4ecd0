//! The laws of sessions: what becomes of them by calls and boots, and over whole histories.
ghost use Rattle.apex_world.specs.declared.calls.BootOrder.{BootOrder};
ghost use Rattle.apex_world.specs.declared.calls.Call.{Call};
ghost use Rattle.apex_world.specs.Boot.{boot_world};
ghost use Rattle.apex_world.specs.Lawful.{Lawful};
ghost use Rattle.apex_world.specs.Selection.{Mounts};
ghost use Rattle.apex_world.specs.Step.{step};
ghost use Rattle.apex_world.specs.World.{World};
ghost use Rattle.world_facts.specs.Follows.{Follows};
ghost use Rattle.world_laws.specs.Histories.{IdsAreUsedOnce, IdsAreUsedOnceFromBoots};

/// A call or a boot takes no session away and changes no id, kind, part or fingerprint of one. Each state that it
/// changes goes by one of the moves. A session that it adds has ids that nobody has had.
pub fn sessions_stay()
    ensures calls { (w : World) → Lawful w → (call : Call) → Follows w.sessions (step w call).world.sessions }
    ensures boots { (w : World) → Lawful w → (order : BootOrder) (mounts : Mounts) → Follows w.sessions (boot_world w order mounts).sessions }
{}

/// Over a whole history, of boots and calls, no id is used twice: a session that comes in has ids that nobody has had
/// before, and all ids differ at each moment, those of the sessions and children that one trigger makes too.
pub fn ids_are_used_once()
    ensures running { IdsAreUsedOnce }
    ensures boots { IdsAreUsedOnceFromBoots }
{}
