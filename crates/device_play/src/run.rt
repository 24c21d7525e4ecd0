//! A run: what it keeps, and how a turn enters its history. `enter_turn` is the commit point.
use crate::calls::prepared;
use crate::device::Device;
use crate::mounts::AllBut;
use apex_core::Answer;
use apex_world::{BootReply, CallRef, ScriptBoot, TurnRow, Turns};
use play_text::TurnText;
use std::alloc::{AllocError, Global};

/// A run so far: its device, its turns, and what puts their lines.
#[derive(Drop)]
pub struct Run {
    pub(crate) device: Device,
    pub(crate) turns: Vec<TurnRow>,
    pub(crate) text: TurnText,
}

impl Run {
    ghost use Rattle.std.specs.Prelude.{◌≡◌, ◌<◌, ◌+◌, ◌++◌, ◌^◌, ◌∷◌, [], IfOk, OnErr, OnOk, vec_capacity, vec_len};
    ghost use Rattle.apex_base.specs.declared.numbers.Scale.{Scale};
    ghost use Rattle.apex_core.specs.Core.{IfAnswered, IfNoMemory};
    ghost use Rattle.apex_world.specs.declared.turns.Shown.TheVariants.{Booted, Replied};
    ghost use Rattle.apex_world.specs.Calls.{call_at};
    ghost use Rattle.apex_world.specs.Fold.{BootOf, CallOf, turned_by};
    ghost use Rattle.apex_world.specs.Playable.{IsBuilt};
    ghost use Rattle.apex_world.specs.World.{World, empty_world};
    ghost use Rattle.device_play.specs.Device.{IsDeviceOf, IsOn};
    ghost use Rattle.device_play.specs.Events.{CanBoot};

    /// A run of which nothing is played yet.
    pub fn start(alloc: Global) -> Self
        ensures device { (scale : Scale) → IsDeviceOf result.device (empty_world scale) }
        ensures turns { result.turns.items ≡ [] }
    {
        Run {
            device: Device::new(alloc),
            turns: Vec::new(alloc),
            text: TurnText::new(alloc),
        }
    }

    /// The turns of a run that has ended.
    pub fn into_turns(self) -> Turns
        ensures { result ≡ self.turns.items }
    {
        Turns::of(self.turns)
    }

    /// A call happens, and its turn enters with the reply that it got. Where memory runs out no turn enters. Room for
    /// the turn is taken first, so that nothing happens that the history couldn't hold.
    pub(crate) fn enter_call(&mut self, alloc: Global, row: TurnRow, call: &CallRef) -> Answer
        requires built { IsBuilt (call_at call.now) }
        requires on { IsOn self.old.device }
        ensures reply { (w : World) → IsDeviceOf self.old.device w
            → IfAnswered result (λ reply. Replied reply ≡ (turned_by w (CallOf (call_at call.now))).shown) }
        ensures leads { (w : World) → IsDeviceOf self.old.device w
            → IfAnswered result (λ _. IsDeviceOf self.new.device (turned_by w (CallOf (call_at call.now))).world) }
        ensures turn { IfAnswered result (λ _. self.new.turns.items ≡ self.old.turns.items ++ row ∷ []) }
        ensures no_turn { IfNoMemory result (λ _. self.new.turns.items ≡ self.old.turns.items) }
        ensures on { IfAnswered result (λ _. IsOn self.new.device) }
    {
        if self.turns.reserve(1).is_err() {
            return Answer::NoMemory { entered: false };
        }
        let answer = self.device.act(alloc, &row, prepared(alloc, call));
        if let Answer::Answered(_) = &answer {
            self.enter_turn(row);
        }
        answer
    }

    /// A boot happens, and its turn enters with the reply that it got; else as `enter_call`.
    pub(crate) fn enter_boot(
        &mut self,
        alloc: Global,
        row: TurnRow,
        boot: &ScriptBoot,
    ) -> Result<BootReply, AllocError>
        requires can { (w : World) × (IsDeviceOf self.old.device w × CanBoot w boot.now.order) }
        requires alone { boot.now.order.observers ≡ [] }
        ensures reply { (w : World) → IsDeviceOf self.old.device w → CanBoot w boot.now.order
            → IfOk result (λ reply. Booted reply ≡ (turned_by w (BootOf boot.now)).shown) }
        ensures leads { (w : World) → IsDeviceOf self.old.device w → CanBoot w boot.now.order
            → OnOk result (IsDeviceOf self.new.device (turned_by w (BootOf boot.now)).world) }
        ensures turn { OnOk result (self.new.turns.items ≡ self.old.turns.items ++ row ∷ []) }
        ensures no_turn { OnErr result (self.new.turns.items ≡ self.old.turns.items) }
        ensures on { OnOk result (IsOn self.new.device) }
    {
        let mounter = AllBut {
            modules: boot.mounts.as_slice(),
        };
        self.turns.reserve(1)?;
        let reply = self.device.boot(alloc, &boot.order, &mounter)?;
        self.enter_turn(row);
        Ok(reply)
    }

    /// THE COMMIT POINT: the turn of what has just happened enters the history. There is room for it, and none of its
    /// lines has been put.
    fn enter_turn(&mut self, row: TurnRow)
        requires room { vec_len self.old.turns < vec_capacity self.old.turns }
        ensures turns { self.new.turns.items ≡ self.old.turns.items ++ row ∷ [] }
        ensures device { self.new.device ≡ self.old.device }
    {
        self.turns.push_reserved(row);
    }
}
