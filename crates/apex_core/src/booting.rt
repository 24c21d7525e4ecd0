//! A boot from rows: `docs/boot.md`, and what becomes of the rows in `docs/rows.md`, "After a boot".
ghost use Rattle.std.specs.Prelude.{◌≡◌};

use crate::manager::Core;
use apex_base::{Listed, Mounter, Pick};
use apex_world::{ActiveSet, BootOrder, BootReply};
use boot_recover::{BootWhy, judge_boot, open_bootable};
use call_judge::{Tables, unfinished_of, units_of};
use package_store::{kept_weight, rows_are_those_shown};
use row_map::Rows;
use std::alloc::Global;

impl Core {
    ghost use Rattle.std.specs.Prelude.{◌≡◌, ◌<◌, [], None, IfOk, OnOk, IfErr};
    ghost use Rattle.std.specs.FinMap as fin;
    ghost use Rattle.apex_base.specs.declared.why.Why.TheVariants.{NoMemory};
    ghost use Rattle.apex_world.specs.Boot.{boot_reply, boot_world};
    ghost use Rattle.world_laws.specs.Invariance.{IsOrderOf};
    ghost use Rattle.apex_world.specs.World.{World};
    ghost use Rattle.call_judge.specs.Stands.{StandsFor};
    ghost use Rattle.stored_world.specs.Stored.{IsStored};
    ghost use Rattle.boot_recover.specs.Refused.{AreBootable, AreRefused, HasBootsLeft, IsAnOrder};

    /// Boots a device from its rows, which may be anybody's, with an order that registers no observer. `Fault` with a tag
    /// comes exactly if they aren't rows to boot from (`AreRefused`): the least tag at which they aren't the rows of the
    /// world that they open to; 0 if that world isn't lawful, or had 4000000000 boots; or the least tag of rows that no
    /// world built so far has. The rows are gone then. `NoMemory` may come at any time.
    pub fn boot<M: Mounter>(
        alloc: Global,
        rows: Rows,
        order: &BootOrder,
        mounter: &M,
    ) -> Result<(Core, BootReply), BootWhy>
        // No row has the empty key, as none in a batch has.
        requires keyed { fin.get rows [] ≡ None }
        requires order { IsAnOrder order.now }
        requires alone { order.now.observers ≡ [] }
        ensures reply { (w : World) → IsStored rows w → IsOrderOf w order.now
            → IfOk result (λ up. up.1 ≡ boot_reply w order.now (M.mounting mounter.now)) }
        ensures stands { (w : World) → IsStored rows w → IsOrderOf w order.now
            → IfOk result (λ up. StandsFor up.0.rows up.0.tables (boot_world w order.now (M.mounting mounter.now))) }
        ensures good { OnOk result (AreBootable rows order.now.scale) }
        ensures bad { IfErr result (AreRefused rows order.now.scale) }

        // Rows of a world that boots and calls lead to so far are never refused.
        ensures welcome { (w : World) → IsStored rows w → IsOrderOf w order.now → HasBootsLeft w
            → IfErr result (λ why. why ≡ NoMemory) }
    {
        let opened = open_bootable(alloc, &rows, order.scale)?;
        let judged = judge_boot(alloc, &rows, opened, order, mounter)?;
        let image = order.image.share()?;
        let mut after = rows;
        after.change_all(judged.rows)?;
        rows_are_those_shown();
        let weight = kept_weight(after.by_key());
        let units = units_of(&judged.sessions);
        let unfinished = unfinished_of(alloc, &judged.sessions)?;
        let tables = Tables {
            scale: order.scale,
            sessions: judged.sessions,
            unfinished,
            units,
            weight,
            image,
            active: active_set(judged.active),
            clock: order.time,
        };
        Ok((Core::of(after, tables), judged.reply))
    }
}

fn active_set(picks: Vec<Pick>) -> ActiveSet
    ensures { result ≡ picks.items }
{
    Listed::of(picks)
}
