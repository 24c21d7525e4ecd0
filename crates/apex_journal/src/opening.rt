//! Opens a device that was formatted. Nothing is written: a sync comes first, so that what is read is on the disk.
ghost use Rattle.std.specs.Prelude.{◌≡◌, ◌≤◌, ◌+◌, ◌*◌, List, ℕ, length, take, MatchResult, IfOk, IfErr, IfSome, OnOk};
ghost use Rattle.apex_base.specs.Numbers.{scale_device_len};
ghost use Rattle.apex_disk.specs.Disk.{IsSettled, FewerImages, SameImages, CountsFaults, StaysGone};
ghost use Rattle.apex_disk.specs.Moments.{LeavesOnly};
ghost use Rattle.apex_journal.specs.declared.why.JournalWhy.TheVariants.{Blank};
ghost use Rattle.apex_journal.specs.Records.{blocks, HalfHolds};
ghost use Rattle.apex_journal.specs.Journal.{half_len, half_of, IsBlank, Opens, Stands, Told};
ghost use Rattle.apex_journal.specs.Heads.{IsHalfWhy};
ghost use Rattle.apex_journal.specs.Refusals.{WhyClosed, CountsFault};

use crate::half::HalfRead;
use crate::head::{HEAD, judge};
use crate::journal::Journal;
use crate::pieces::{Reading, nothing_read, read_on};
use crate::scale::half_len;
use crate::why::JournalWhy;
use apex_base::{Bytes, Failed, Scale};
use apex_disk::Disk;
use std::alloc::Global;

impl<D: Disk> Journal<D> {
    /// Opens the store of that scale on the device, with its records in order.
    pub fn open(
        alloc: Global,
        disk: D,
        scale: Scale,
    ) -> Result<(Journal<D>, Vec<Bytes>), (D, JournalWhy)>
        ensures stands { IfOk result (λ opened. Stands D.reads D.images opened.0 opened.1.items) }
        ensures scale { IfOk result (λ opened. opened.0.scale ≡ scale) }
        ensures start { IfOk result (λ opened. opened.0.start ≡ 4096) }
        ensures long { OnOk result (scale_device_len scale ≤ D.length_of disk) }
        ensures used { IfOk result (λ opened. opened.0.used ≡ length (blocks opened.1.items) + 1) }
        ensures within { IfOk result (λ opened. opened.0.used ≤ half_len scale) }

        // A refusal, and what is known of a blank device.
        ensures refused { IfErr result (λ refused. WhyClosed scale (D.length_of disk) (D.reads disk) refused.1) }
        ensures cause { MatchResult result (λ opened. D.faults disk ≡ D.faults opened.0.device) (λ refused. CountsFault (D.faults disk) (D.faults refused.0) refused.1) }
        ensures blank { IfErr result (λ refused. refused.1 ≡ Blank → (c : List ℕ) → D.images refused.0 c → IsBlank c) }
        ensures gone { D.gone disk → OnOk result ⊥ }
        ensures still_gone { IfErr result (λ refused. D.gone disk → D.gone refused.0) }

        // What stays.
        ensures reads { MatchResult result (λ opened. D.reads opened.0.device ≡ D.reads disk) (λ refused. D.reads refused.0 ≡ D.reads disk) }
        ensures images { MatchResult result (λ opened. FewerImages (D.images disk) (D.images opened.0.device)) (λ refused. FewerImages (D.images disk) (D.images refused.0)) }
        ensures any_moment { MatchResult result (λ opened. LeavesOnly D.moment D.images_since disk opened.0.device (D.images disk)) (λ refused. LeavesOnly D.moment D.images_since disk refused.0 (D.images disk)) }
        ensures log { MatchResult result (λ opened. D.log opened.0.device ≡ D.log disk) (λ refused. D.log refused.0 ≡ D.log disk) }
        ensures len { MatchResult result (λ opened. D.length_of opened.0.device ≡ D.length_of disk) (λ refused. D.length_of refused.0 ≡ D.length_of disk) }
    {
        let mut disk = disk;
        match read_store(alloc, &mut disk, scale) {
            Err(why) => Err((disk, why)),
            Ok(read) => {
                let HalfRead { records, used } = read;
                Ok((Journal::of(alloc, disk, scale, used), records))
            }
        }
    }
}

/// Judges the device in the order of the refusals, and reads its records.
fn read_store<D: Disk>(alloc: Global, disk: &mut D, scale: Scale) -> Result<HalfRead, JournalWhy>
    ensures found { IfOk result (λ read. Told (D.reads disk.old) (λ file. Opens scale file read.records.items)) }
    ensures counts { IfOk result (λ read. read.used ≡ length (blocks read.records.items) + 1) }
    ensures within { IfOk result (λ read. read.used ≤ half_len scale) }
    ensures long { OnOk result (4096 + 2 * half_len scale ≤ D.length_of disk.new) }
    ensures settled { OnOk result (IsSettled (D.images disk.new) (D.reads disk.new)) }
    ensures refused { IfErr result (λ why. WhyClosed scale (D.length_of disk.old) (D.reads disk.old) why) }
    ensures cause { MatchResult result (λ _. D.faults disk.old ≡ D.faults disk.new) (λ why. CountsFault (D.faults disk.old) (D.faults disk.new) why) }
    ensures blank { IfErr result (λ why. why ≡ Blank → (c : List ℕ) → D.images disk.new c → IsBlank c) }
    ensures gone { StaysGone (D.gone disk.old) (D.gone disk.new) result }
    ensures reads { D.reads disk.new ≡ D.reads disk.old }
    ensures images { FewerImages (D.images disk.old) (D.images disk.new) }
    ensures any_moment { LeavesOnly D.moment D.images_since disk.old disk.new (D.images disk.old) }
    ensures log { D.log disk.new ≡ D.log disk.old }
    ensures len { D.length_of disk.new ≡ D.length_of disk.old }
{
    let len = disk.len();
    let need = scale.device_len();
    if len < need {
        return Err(JournalWhy::Small { len, need });
    }
    if disk.reserve(1, 0).is_err() {
        return Err(JournalWhy::NoMemory);
    }
    let mut head = [0u8; HEAD];
    match sync_and_read(disk, &mut head) {
        Err(_) => return Err(JournalWhy::DiskFault),
        Ok(()) => {}
    }
    match judge(&head, scale) {
        Err(why) => return Err(why),
        Ok(()) => {}
    }
    read_in_use(alloc, disk, scale)
}

/// A sync, and then the first bytes.
fn sync_and_read<D: Disk>(disk: &mut D, head: &mut [u8]) -> Result<(), Failed>
    requires room { 1 ≤ D.spare_calls disk.old }
    requires long { length head.old ≤ D.length_of disk.old }
    ensures head { OnOk result (IfSome (D.reads disk.old) (λ file. head.new ≡ take (length head.old) file)) }
    ensures settled { OnOk result (IsSettled (D.images disk.new) (D.reads disk.new)) }
    ensures cause { CountsFaults (D.faults disk.old) (D.faults disk.new) result }
    ensures gone { StaysGone (D.gone disk.old) (D.gone disk.new) result }
    ensures reads { D.reads disk.new ≡ D.reads disk.old }
    ensures images { FewerImages (D.images disk.old) (D.images disk.new) }
    ensures any_moment { LeavesOnly D.moment D.images_since disk.old disk.new (D.images disk.old) }
    ensures log { D.log disk.new ≡ D.log disk.old }
    ensures len { D.length_of disk.new ≡ D.length_of disk.old }
{
    match disk.sync() {
        Err(failed) => return Err(failed),
        Ok(()) => {}
    }
    disk.read(0, head)
}

/// The records of the half in use.
fn read_in_use<D: Disk>(alloc: Global, disk: &mut D, scale: Scale) -> Result<HalfRead, JournalWhy>
    requires { 4096 + 2 * half_len scale ≤ D.length_of disk.old }
    ensures found { IfOk result (λ read. Told (D.reads disk.old) (λ file. HalfHolds (half_of scale file) read.records.items read.used)) }
    ensures counts { IfOk result (λ read. read.used ≡ length (blocks read.records.items) + 1) }
    ensures within { IfOk result (λ read. read.used ≤ half_len scale) }
    ensures refused { IfErr result (λ why. IsHalfWhy scale (D.reads disk.old) why) }
    ensures cause { MatchResult result (λ _. D.faults disk.old ≡ D.faults disk.new) (λ why. CountsFault (D.faults disk.old) (D.faults disk.new) why) }
    ensures gone { StaysGone (D.gone disk.old) (D.gone disk.new) result }
    ensures reads { D.reads disk.new ≡ D.reads disk.old }
    ensures images { SameImages (D.images disk.old) (D.images disk.new) }
    ensures any_moment { LeavesOnly D.moment D.images_since disk.old disk.new (D.images disk.old) }
    ensures log { D.log disk.new ≡ D.log disk.old }
    ensures len { D.length_of disk.new ≡ D.length_of disk.old }
{
    let Ok(mut reading) = nothing_read(alloc, half_len(scale)) else {
        return Err(JournalWhy::NoMemory);
    };
    'pieces: loop {
        match read_on(alloc, disk, scale, &mut reading) {
            Err(why) => return Err(why),
            Ok(false) => {}
            Ok(true) => {
                let Reading {
                    records,
                    at,
                    piece: _,
                } = reading;
                return Ok(HalfRead {
                    records,
                    used: at + 1,
                });
            }
        }
    }
}
