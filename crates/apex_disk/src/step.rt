//! One step of a longer change: bytes that are on the disk before the next step begins.
ghost use Rattle.std.specs.Prelude.{◌≡◌, ◌≤◌, ◌+◌, ℕ, List, option_map, length, OnOk};
ghost use Rattle.apex_disk.specs.Disk.{written, Torn, IsSettled, CountsFaults, StaysGone, Takes};
ghost use Rattle.apex_disk.specs.Moments.{LeavesOnly};

use crate::disk::Disk;
use apex_base::Failed;

/// Writes, and then syncs. At every moment a crash leaves what it might have left before, with any bytes in the range.
pub fn write_and_sync<D: Disk>(disk: &mut D, at: u64, bytes: &[u8]) -> Result<(), Failed>
    requires range { at + length bytes.now ≤ D.length_of disk.old }
    requires room { (2 ≤ D.spare_calls disk.old) × (length bytes.now ≤ D.spare_bytes disk.old) }
    ensures any_moment { LeavesOnly D.moment D.images_since disk.old disk.new
        (λ c. (d : List ℕ) × D.images disk.old d × Torn at (length bytes.now) d c) }
    ensures written { OnOk result (D.reads disk.new ≡ option_map (written at bytes.now) (D.reads disk.old)) }
    ensures settled { OnOk result (IsSettled (D.images disk.new) (D.reads disk.new)) }
    ensures cause { CountsFaults (D.faults disk.old) (D.faults disk.new) result }
    ensures gone { StaysGone (D.gone disk.old) (D.gone disk.new) result }
    ensures spare { Takes 2 (length bytes.now) (D.spare_calls disk.old) (D.spare_bytes disk.old) (D.spare_calls disk.new) (D.spare_bytes disk.new) }
    ensures log { D.log disk.new ≡ D.log disk.old }
    ensures len { D.length_of disk.new ≡ D.length_of disk.old }
{
    match disk.write(at, bytes) {
        Err(failed) => return Err(failed),
        Ok(()) => {}
    }
    disk.sync()
}
