//! A journal that is open: records are appended to it, and each is there whole or not at all.
ghost use Rattle.std.specs.Prelude.{◌≡◌, ◌≤◌, ◌<◌, ◌+◌, ◌*◌, ◌^◌, ◌++◌, [], ◌∷◌, List, ℕ, length, drop, OnOk, OnErr};
ghost use Rattle.apex_disk.specs.Disk.{SameImages};
ghost use Rattle.apex_disk.specs.Moments.{LeavesOnly};
ghost use Rattle.apex_disk.specs.declared.disk.Entry.TheVariants.{Armed};
ghost use Rattle.apex_journal.specs.Journal.{half_len, Stands};
ghost use Rattle.apex_journal.specs.Appends.{AppendCounts, IsFullWhere, IsUnwritten, IsUntouched, MayHold};

use crate::frame::{frame, with_room};
use crate::gate::write_behind_gate;
use crate::scale::{START, half_len};
use crate::why::AppendWhy;
use apex_base::Scale;
use apex_disk::{Device, Disk};
use std::alloc::{AllocError, Global};
use std::marker::Model;

/// The records of a device, which it holds.
#[derive(Drop)]
pub struct Journal<D: Disk> {
    alloc: Global,
    disk: D,
    scale: Scale,
    start: u64,
    used: u64,
}

impl<D: Disk> Model for Journal<D> {
    ghost use Rattle.apex_journal.specs.Journal.{Seen, IsInside};

    ghost Value = { Seen D };

    ghost view = { λ journal. record { device = journal.disk; scale = journal.scale; start = journal.start; used = journal.used } };

    ghost invariant = { λ journal. IsInside (D.length_of journal.disk) journal.scale journal.start journal.used };
}

impl<D: Disk> Journal<D> {
    /// The journal of a device whose records and closed gate use so many bytes of the half in use.
    pub(crate) fn of(alloc: Global, disk: D, scale: Scale, used: u64) -> Journal<D>
        requires some { 1 ≤ used }
        requires within { used ≤ half_len scale }
        requires small { half_len scale < 2 ^ 32 }
        requires long { 4096 + 2 * half_len scale ≤ D.length_of disk }
        ensures device { result.device ≡ disk }
        ensures scale { result.scale ≡ scale }
        ensures start { result.start ≡ 4096 }
        ensures used { result.used ≡ used }
    {
        Journal {
            alloc,
            disk,
            scale,
            start: START,
            used,
        }
    }

    /// Adds a record, by two writes and two syncs. All memory is taken before the first of them. After `DiskFault` the
    /// device has to be opened again.
    pub fn append(&mut self, piece: &[u8]) -> Result<(), AppendWhy>
        ensures appended { OnOk result ((records : List (List ℕ)) → Stands D.reads D.images self.old records → Stands D.reads D.images self.new (records ++ piece.now ∷ [])) }
        ensures any_moment { (records : List (List ℕ)) → Stands D.reads D.images self.old records
            → LeavesOnly D.moment D.images_since self.old.device self.new.device (MayHold result self.old.scale records piece.now) }

        // A refusal.
        ensures cause { AppendCounts (D.faults self.old.device) (D.faults self.new.device) result }
        ensures full { IsFullWhere self.old.used (length piece.now + 5) (half_len self.old.scale) result }
        ensures unchanged { IsUnwritten result → (records : List (List ℕ)) → Stands D.reads D.images self.old records → Stands D.reads D.images self.new records }
        ensures untouched { IsUntouched result → self.new ≡ self.old }

        // What stays.
        ensures gone { D.gone self.old.device → OnOk result ⊥ }
        ensures log { D.log self.new.device ≡ D.log self.old.device }
        ensures len { D.length_of self.new.device ≡ D.length_of self.old.device }
        ensures scale { self.new.scale ≡ self.old.scale }
        ensures start { self.new.start ≡ self.old.start }
    {
        let used = self.used;
        let size = half_len(self.scale);
        let need = piece.len() as u64 + 5;
        if used + need > size {
            return Err(AppendWhy::JournalFull { used, need, size });
        }
        let Ok(bytes) = with_room(self.alloc, piece) else {
            return Err(AppendWhy::NoMemory);
        };
        self.append_in_place(bytes)
    }

    /// Adds as a record what stands after the first four bytes, which are room for its length. No byte of the record
    /// is copied. Else it is as `append`.
    pub fn append_in_place(&mut self, bytes: Vec<u8>) -> Result<(), AppendWhy>
        requires { 4 ≤ length bytes.items }
        ensures appended { OnOk result ((records : List (List ℕ)) → Stands D.reads D.images self.old records → Stands D.reads D.images self.new (records ++ drop 4 bytes.items ∷ [])) }
        ensures any_moment { (records : List (List ℕ)) → Stands D.reads D.images self.old records
            → LeavesOnly D.moment D.images_since self.old.device self.new.device (MayHold result self.old.scale records (drop 4 bytes.items)) }

        // A refusal.
        ensures cause { AppendCounts (D.faults self.old.device) (D.faults self.new.device) result }
        ensures full { IsFullWhere self.old.used (length bytes.items + 1) (half_len self.old.scale) result }
        ensures unchanged { IsUnwritten result → (records : List (List ℕ)) → Stands D.reads D.images self.old records → Stands D.reads D.images self.new records }
        ensures untouched { IsUntouched result → self.new ≡ self.old }

        // What stays.
        ensures gone { D.gone self.old.device → OnOk result ⊥ }
        ensures log { D.log self.new.device ≡ D.log self.old.device }
        ensures len { D.length_of self.new.device ≡ D.length_of self.old.device }
        ensures scale { self.new.scale ≡ self.old.scale }
        ensures start { self.new.start ≡ self.old.start }
    {
        let used = self.used;
        let size = half_len(self.scale);
        let need = bytes.len() as u64 + 1;
        if size < used + need {
            return Err(AppendWhy::JournalFull { used, need, size });
        }
        let Ok(bytes) = frame(bytes) else {
            return Err(AppendWhy::NoMemory);
        };
        if self.disk.reserve(4, need + 1).is_err() {
            return Err(AppendWhy::NoMemory);
        }
        let gate = self.start + used - 1;
        match write_behind_gate(&mut self.disk, gate, &bytes) {
            Err(_) => return Err(AppendWhy::DiskFault),
            Ok(()) => {}
        }
        self.used = used + need;
        Ok(())
    }

    /// The offset on the device of the half that is in use.
    pub fn start(&self) -> u64
        ensures { result ≡ self.now.start }
    {
        self.start
    }

    /// The device.
    pub fn into_disk(self) -> D
        ensures { result ≡ self.device }
    {
        let Journal {
            alloc: _,
            disk,
            scale: _,
            start: _,
            used: _,
        } = self;
        disk
    }
}

impl<D: Device> Journal<D> {
    /// Lets the power fail at the write of that number from now on, counted from 1, as the device's `arm` does. The
    /// records stay as they are.
    pub fn arm(&mut self, writes: u32, pick: u32) -> Result<(), AllocError>
        ensures armed { OnOk result (D.log self.new.device ≡ D.log self.old.device ++ Armed writes pick ∷ []) }
        ensures refused { OnErr result (D.log self.new.device ≡ D.log self.old.device) }
        ensures any_moment { LeavesOnly D.moment D.images_since self.old.device self.new.device (D.images self.old.device) }

        // What stays.
        ensures stands { (records : List (List ℕ)) → Stands D.reads D.images self.old records → Stands D.reads D.images self.new records }
        ensures reads { D.reads self.new.device ≡ D.reads self.old.device }
        ensures images { SameImages (D.images self.old.device) (D.images self.new.device) }
        ensures faults { D.faults self.new.device ≡ D.faults self.old.device }
        ensures gone { D.gone self.old.device → D.gone self.new.device }
        ensures len { D.length_of self.new.device ≡ D.length_of self.old.device }
        ensures scale { self.new.scale ≡ self.old.scale }
        ensures start { self.new.start ≡ self.old.start }
        ensures used { self.new.used ≡ self.old.used }
    {
        self.disk.arm(writes, pick)
    }
}
