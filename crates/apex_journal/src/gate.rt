//! How every change of the journal reaches the device: bytes after a closed gate, which is opened once all is synced.
ghost use Rattle.std.specs.Prelude.{◌≡◌, ◌≤◌, ◌<◌, ◌+◌, ◌^◌, ℕ, List, option_map, length, OnOk};
ghost use Rattle.apex_disk.specs.Disk.{IsSettled, CountsFaults, StaysGone};
ghost use Rattle.apex_disk.specs.Moments.{LeavesOnly};
ghost use Rattle.apex_journal.specs.Gate.{gated, MayBeGated};

use apex_base::Failed;
use apex_disk::{Disk, write_and_sync};

/// Writes after the gate at that offset and syncs, and then opens the gate and syncs. The bytes bring a closed gate of
/// their own, where something may come to stand after them.
pub(crate) fn write_behind_gate<D: Disk>(
    disk: &mut D,
    gate: u64,
    bytes: &[u8],
) -> Result<(), Failed>
    requires small { gate + 1 < 2 ^ 64 }
    requires range { gate + 1 + length bytes.now ≤ D.length_of disk.old }
    requires room { (4 ≤ D.spare_calls disk.old) × (length bytes.now + 1 ≤ D.spare_bytes disk.old) }
    ensures any_moment { LeavesOnly D.moment D.images_since disk.old disk.new
        (λ c. (d : List ℕ) × D.images disk.old d × MayBeGated gate bytes.now d c) }
    ensures written { OnOk result (D.reads disk.new ≡ option_map (gated gate bytes.now) (D.reads disk.old)) }
    ensures settled { OnOk result (IsSettled (D.images disk.new) (D.reads disk.new)) }
    ensures cause { CountsFaults (D.faults disk.old) (D.faults disk.new) result }
    ensures gone { StaysGone (D.gone disk.old) (D.gone disk.new) result }
    ensures log { D.log disk.new ≡ D.log disk.old }
    ensures len { D.length_of disk.new ≡ D.length_of disk.old }
{
    match write_and_sync(disk, gate + 1, bytes) {
        Err(failed) => return Err(failed),
        Ok(()) => {}
    }
    match write_and_sync(disk, gate, &[1]) {
        Err(failed) => Err(failed),
        Ok(()) => Ok(()),
    }
}
