//! A device: boots and calls happen to it, and from one boot to the next nothing but its rows is kept.
ghost use Rattle.std.specs.Prelude.{◌≡◌, [], IfOk, IsSomeAnd, OnOk, IsTrue};
ghost use Rattle.std.specs.Option.{ForSome};
ghost use Rattle.apex_base.specs.Ranges.{IsMillis};
ghost use Rattle.apex_base.specs.Text.{is_print};
ghost use Rattle.call_judge.specs.Stands.{StandsFor};
ghost use Rattle.stored_world.specs.Stored.{IsStored};
ghost use Rattle.apex_core.specs.Core.{IfAnswered, IfNoMemory};
ghost use Rattle.apex_world.specs.Boot.{boot_reply, boot_world};
ghost use Rattle.apex_world.specs.Playable.{IsBuilt};
ghost use Rattle.apex_world.specs.Step.{step};
ghost use Rattle.apex_world.specs.World.{World, empty_world};
ghost use Rattle.device_play.specs.Device.{IsDeviceOf, IsOn};
ghost use Rattle.device_play.specs.Events.{CanBoot};

use apex_base::{Mounter, Scale, Why};
use apex_core::{Answer, Core};
use apex_world::{BootOrder, BootReply, TurnRow};
use call_judge::Prepared;
use row_map::Rows;
use std::alloc::{AllocError, Global};
use std::mem;

/// A device that is off, of which there are only the rows, or one that is on.
#[derive(Drop)]
pub enum Device {
    Off(Rows),
    On(Core),
}

impl Device {
    /// A device that was never booted. It has no rows, and may be of either scale.
    pub fn new(alloc: Global) -> Self
        ensures { (scale : Scale) → IsDeviceOf result (empty_world scale) }
    {
        Device::Off(Rows::new(alloc))
    }

    /// The rows alone.
    pub(crate) fn into_rows(self) -> Rows
        ensures { (w : World) → IsDeviceOf self w → IsStored result w }
    {
        match self {
            Device::Off(rows) => rows,
            Device::On(core) => core.into_rows(),
        }
    }

    /// Boots it from its rows alone, whether it is on or off. Where memory runs out, the rows are gone.
    pub fn boot<M: Mounter>(
        &mut self,
        alloc: Global,
        order: &BootOrder,
        mounter: &M,
    ) -> Result<BootReply, AllocError>
        requires can { (w : World) × (IsDeviceOf self.old w × CanBoot w order.now) }
        requires alone { order.now.observers ≡ [] }
        ensures reply { (w : World) → IsDeviceOf self.old w → CanBoot w order.now
            → IfOk result (λ reply. reply ≡ boot_reply w order.now (M.mounting mounter.now)) }
        ensures leads { (w : World) → IsDeviceOf self.old w → CanBoot w order.now
            → OnOk result (IsDeviceOf self.new (boot_world w order.now (M.mounting mounter.now))) }
        ensures on { OnOk result (IsOn self.new) }
    {
        let rows = mem::replace(self, Device::new(alloc)).into_rows();
        let (core, reply) = boot_stored(alloc, rows, order, mounter)?;
        *self = Device::On(core);
        Ok(reply)
    }

    /// A call happens to a device that is on, as the turn of this row. Where memory runs out, it may be of the worlds that
    /// it was of before.
    pub fn act(&mut self, alloc: Global, row: &TurnRow, call: Prepared) -> Answer
        requires on { IsOn self.old }
        requires built { ForSome call IsBuilt }
        ensures reply { (w : World) → IsDeviceOf self.old w
            → IfAnswered result (λ reply. IsSomeAnd call (λ c. reply ≡ (step w c).reply)) }
        ensures leads { (w : World) → IsDeviceOf self.old w
            → IfAnswered result (λ _. IsSomeAnd call (λ c. IsDeviceOf self.new (step w c).world)) }
        ensures stays { (w : World) → IsDeviceOf self.old w → IfNoMemory result (λ _. IsDeviceOf self.new w) }
        ensures on { IsOn self.new }
    {
        match self {
            Device::Off(_) => unreachable!(),
            Device::On(core) => core.act(alloc, row.lane, row.step, call),
        }
    }
}

/// Boots from the rows of a world that can be booted, so that none of them is refused.
fn boot_stored<M: Mounter>(
    alloc: Global,
    rows: Rows,
    order: &BootOrder,
    mounter: &M,
) -> Result<(Core, BootReply), AllocError>
    requires can { (w : World) × (IsStored rows w × CanBoot w order.now) }
    requires alone { order.now.observers ≡ [] }
    ensures reply { (w : World) → IsStored rows w → CanBoot w order.now
        → IfOk result (λ up. up.1 ≡ boot_reply w order.now (M.mounting mounter.now)) }
    ensures stands { (w : World) → IsStored rows w → CanBoot w order.now
        → IfOk result (λ up. StandsFor up.0.rows up.0.tables (boot_world w order.now (M.mounting mounter.now))) }
{
    known(order);
    match Core::boot(alloc, rows, order, mounter) {
        Ok(up) => Ok(up),
        Err(Why::Fault(_)) => unreachable!(),
        Err(Why::NoMemory) => Err(AllocError),
    }
}

/// For proofs: what the parts of an order are.
fn known(order: &BootOrder)
    ensures print { IsTrue (is_print order.now.image.print) }
    ensures time { IsMillis order.now.time }
{
    let _ = order.image.get().print.as_bytes();
    let _ = order.time.number();
}
