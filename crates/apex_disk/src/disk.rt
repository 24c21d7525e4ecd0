//! What the store needs of the outside: a disk of a fixed length, and a device whose power can be cut.
ghost use Rattle.std.specs.Prelude.{◌≡◌, ◌≤◌, ◌<◌, ◌+◌, ◌∷◌, ◌++◌, [], ℕ, List, Option, Some, IfSome, Result, option_map, length, take, drop, OnOk, OnErr};
ghost use Rattle.apex_disk.specs.Disk.{written, Torn, TornReads, SameImages, FewerImages, Follows, IsSettled, GivesOneImage, Elapses, CountsFaults, StaysGone, Takes};

use apex_base::Failed;
use std::alloc::AllocError;

/// What a device's log tells: each cut that was armed, and each power cycle with the count of faults before it.
#[derive(Clone, Copy, Debug, PartialEq, Eq)]
pub enum Entry {
    Armed { writes: u32, pick: u32 },
    Cycled { count: u64 },
}

/// Bytes at offsets, written and synced. A crash leaves one of the disk's images.
///
/// A disk over a real file tells nothing of its bytes: it has no reads and no images.
pub trait Disk {
    ghost use Rattle.apex_base.specs.declared.outside.Failed.{Failed};
    ghost use Rattle.apex_disk.specs.declared.disk.Entry.{Entry};

    /// What reads give, where that is known.
    ghost reads: { Self → Option (List ℕ) };

    /// What a crash now may leave.
    ghost images: { Self → List ℕ → Type 0 };

    /// The moment, a number that doesn't fall until the next cycle.
    ghost moment: { Self → ℕ };

    /// What a crash at some moment from that one on may have left, within a call or between two.
    ghost images_since: { Self → ℕ → List ℕ → Type 0 };

    /// How often the disk has failed.
    ghost faults: { Self → ℕ };

    /// Every later read, write and sync fails.
    ghost gone: { Self → Type 0 };

    /// Each arm and each cycle so far, in order.
    ghost log: { Self → List Entry };

    ghost length_of: { Self → ℕ };

    /// How many writes, syncs and cycles, and how many written bytes, need no memory.
    ghost spare_calls: { Self → ℕ };

    ghost spare_bytes: { Self → ℕ };

    /// What this kind of disk says of a read, beyond what every disk says.
    ghost read_does: { Self → Self → Result (Unit {0}) Failed → Type 0 };

    /// The same of a write of these bytes at this offset.
    ghost write_does: { Self → Self → ℕ → List ℕ → Result (Unit {0}) Failed → Type 0 };

    /// The same of a sync.
    ghost sync_does: { Self → Self → Result (Unit {0}) Failed → Type 0 };

    fn len(&self) -> u64
        ensures { result ≡ length_of self.now };

    fn faults(&self) -> u64
        ensures { result ≡ faults self.now };

    /// Takes the memory for so many writes, syncs and cycles, and so many bytes.
    fn reserve(&mut self, calls: u32, bytes: u64) -> Result<(), AllocError>
        ensures room { OnOk result ((calls ≤ spare_calls self.new) × (bytes ≤ spare_bytes self.new)) }
        ensures spare { Takes 0 0 (spare_calls self.old) (spare_bytes self.old) (spare_calls self.new) (spare_bytes self.new) }
        ensures reads { reads self.new ≡ reads self.old }
        ensures images { SameImages (images self.old) (images self.new) }
        ensures time { Elapses (moment self.old) (moment self.new) (images_since self.old) (images_since self.new) (images self.new) }
        ensures faults { faults self.new ≡ faults self.old }
        ensures gone { gone self.old → gone self.new }
        ensures log { log self.new ≡ log self.old }
        ensures len { length_of self.new ≡ length_of self.old };

    fn read(&mut self, at: u64, into: &mut [u8]) -> Result<(), Failed>
        requires { at + length into.old ≤ length_of self.old }
        ensures bytes { OnOk result (IfSome (reads self.old) (λ file. into.new ≡ take (length into.old) (drop at file))) }
        ensures reads { reads self.new ≡ reads self.old }
        ensures images { SameImages (images self.old) (images self.new) }
        ensures time { Elapses (moment self.old) (moment self.new) (images_since self.old) (images_since self.new) (images self.new) }
        ensures cause { CountsFaults (faults self.old) (faults self.new) result }
        ensures gone { StaysGone (gone self.old) (gone self.new) result }
        ensures spare { Takes 0 0 (spare_calls self.old) (spare_bytes self.old) (spare_calls self.new) (spare_bytes self.new) }
        ensures log { log self.new ≡ log self.old }
        ensures len { length_of self.new ≡ length_of self.old }
        ensures own { read_does self.old self.new result };

    /// Until a sync has answered Ok, a crash may leave any bytes where it wrote.
    fn write(&mut self, at: u64, bytes: &[u8]) -> Result<(), Failed>
        requires range { at + length bytes.now ≤ length_of self.old }
        requires room { (1 ≤ spare_calls self.old) × (length bytes.now ≤ spare_bytes self.old) }
        ensures written { OnOk result (reads self.new ≡ option_map (written at bytes.now) (reads self.old)) }
        ensures torn { TornReads at (length bytes.now) (reads self.old) (reads self.new) }
        ensures images { Follows (Torn at (length bytes.now)) (images self.old) (images self.new) }
        ensures time { Elapses (moment self.old) (moment self.new) (images_since self.old) (images_since self.new) (images self.new) }
        ensures cause { CountsFaults (faults self.old) (faults self.new) result }
        ensures gone { StaysGone (gone self.old) (gone self.new) result }
        ensures spare { Takes 1 (length bytes.now) (spare_calls self.old) (spare_bytes self.old) (spare_calls self.new) (spare_bytes self.new) }
        ensures log { log self.new ≡ log self.old }
        ensures len { length_of self.new ≡ length_of self.old }
        ensures own { write_does self.old self.new at bytes.now result };

    /// After it, a crash leaves what reads give.
    fn sync(&mut self) -> Result<(), Failed>
        requires { 1 ≤ spare_calls self.old }
        ensures settled { OnOk result (IsSettled (images self.new) (reads self.new)) }
        ensures reads { reads self.new ≡ reads self.old }
        ensures images { FewerImages (images self.old) (images self.new) }
        ensures time { Elapses (moment self.old) (moment self.new) (images_since self.old) (images_since self.new) (images self.new) }
        ensures cause { CountsFaults (faults self.old) (faults self.new) result }
        ensures gone { StaysGone (gone self.old) (gone self.new) result }
        ensures spare { Takes 1 0 (spare_calls self.old) (spare_bytes self.old) (spare_calls self.new) (spare_bytes self.new) }
        ensures log { log self.new ≡ log self.old }
        ensures len { length_of self.new ≡ length_of self.old }
        ensures own { sync_does self.old self.new result };

    /// This moment is one of those since an earlier one.
    ghost counts_now: { (disk : Self) (t : ℕ) (c : List ℕ) → t ≤ moment disk → images disk c → images_since disk t c };

    /// Since this moment there is no other.
    ghost only_now: { (disk : Self) (c : List ℕ) → images_since disk (moment disk) c → images disk c };

    /// Each image is as long as the disk.
    ghost images_long: { (disk : Self) (c : List ℕ) → images disk c → length c ≡ length_of disk };

    /// A crash may leave what reads give. So no disk tells its reads and hides its images.
    ghost reads_left: { (disk : Self) (file : List ℕ) → reads disk ≡ Some file → images disk file };
}

/// A disk whose power can be cut at a write, and comes back.
pub trait Device: Disk {
    /// What this kind of device says of an arm of these writes and this pick, beyond what every device says.
    ghost arm_does: { Self → Self → ℕ → ℕ → Type 0 };

    /// The same of a cycle.
    ghost cycle_does: { Self → Self → Type 0 };

    /// Lets the power fail at the write of that number from now on, counted from 1.
    fn arm(&mut self, writes: u32, pick: u32) -> Result<(), AllocError>
        ensures armed { OnOk result (Self.log self.new ≡ Self.log self.old ++ Entry.Armed writes pick ∷ []) }
        ensures refused { OnErr result (Self.log self.new ≡ Self.log self.old) }
        ensures own { OnOk result (arm_does self.old self.new writes pick) }
        ensures spare { Takes 0 0 (Self.spare_calls self.old) (Self.spare_bytes self.old) (Self.spare_calls self.new) (Self.spare_bytes self.new) }
        ensures reads { Self.reads self.new ≡ Self.reads self.old }
        ensures images { SameImages (Self.images self.old) (Self.images self.new) }
        ensures time { Elapses (Self.moment self.old) (Self.moment self.new) (Self.images_since self.old) (Self.images_since self.new) (Self.images self.new) }
        ensures faults { Self.faults self.new ≡ Self.faults self.old }
        ensures gone { Self.gone self.old → Self.gone self.new }
        ensures len { Self.length_of self.new ≡ Self.length_of self.old };

    /// The power goes and comes back: reads give one of the images, all of it synced, and no arm is active.
    fn cycle(&mut self)
        requires { 1 ≤ Self.spare_calls self.old }
        ensures log { Self.log self.new ≡ Self.log self.old ++ Entry.Cycled (Self.faults self.old) ∷ [] }
        ensures one { GivesOneImage (Self.images self.old) (Self.reads self.old) (Self.reads self.new) }
        ensures settled { IsSettled (Self.images self.new) (Self.reads self.new) }
        ensures own { cycle_does self.old self.new }
        ensures spare { Takes 1 0 (Self.spare_calls self.old) (Self.spare_bytes self.old) (Self.spare_calls self.new) (Self.spare_bytes self.new) }
        ensures later { Self.faults self.old ≤ Self.faults self.new }
        ensures lost { Self.faults self.old < Self.faults self.new → Self.gone self.new }
        ensures gone { Self.gone self.old → Self.gone self.new }
        ensures len { Self.length_of self.new ≡ Self.length_of self.old };
}
