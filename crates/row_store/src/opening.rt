//! Opens a device as a store of rows. A blank one is formatted first.
ghost use Rattle.std.specs.Prelude.{◌≡◌, ◌≢◌, ◌<◌, ◌≤◌, ◌^◌, List, ℕ, None, Ok, length, MatchResult, IfOk, IfErr, OnOk};
ghost use Rattle.apex_base.specs.Numbers.{scale_device_len};
ghost use Rattle.apex_disk.specs.Disk.{FewerImages};
ghost use Rattle.apex_disk.specs.Moments.{LeavesOnly};
ghost use Rattle.apex_journal.specs.Journal.{Told, IsBlank, BlankOrEmpty, Stands};
ghost use Rattle.apex_journal.specs.Records.{blocks};
ghost use Rattle.row_store.specs.Store.{StoresOrBlank, IsStore};
ghost use Rattle.apex_journal.specs.declared.why.JournalWhy.TheVariants.{Blank};
ghost use Rattle.row_store.specs.Rows.{held_from, nothing};
ghost use Rattle.row_store.specs.Opening.{WhyRefused, CountsFault, IsBadAmong, IsFormatWhy, IsJudged, MayOpen};
ghost use Rattle.row_store.specs.Refused.{store_why_of};

use crate::reading::{Found, ReadWhy, read_records};
use crate::store::RowStore;
use crate::why::StoreWhy;
use apex_base::{Bytes, Scale};
use apex_disk::Disk;
use apex_journal::{Journal, JournalWhy};
use row_map::Rows;
use std::alloc::Global;

impl<D: Disk> RowStore<D> {
    /// Opens the store of that scale on the device, with its rows. A blank device is formatted, and has none.
    ///
    /// `Small`, `NotAStore`, `ScaleDiffers` and `Damaged` come exactly when the device shows them, the first of them
    /// that holds, with offsets from the device's start. `DiskFault` comes exactly when its count of faults rose.
    pub fn open(alloc: Global, disk: D, scale: Scale) -> Result<RowStore<D>, (D, StoreWhy)>
        ensures found { IfOk result (λ store. Told (D.reads disk) (λ file. StoresOrBlank scale file store.held)) }
        ensures stands { IfOk result (λ store. IsStore D.reads D.images store) }
        ensures fresh { IfOk result (λ store. store.pending ≡ None) }
        ensures scale { IfOk result (λ store. store.journal.scale ≡ scale) }
        ensures any_moment { MatchResult result (λ store. LeavesOnly D.moment D.images_since disk store.journal.device (MayOpen (D.images disk) (D.reads disk) scale)) (λ refused. LeavesOnly D.moment D.images_since disk refused.0 (MayOpen (D.images disk) (D.reads disk) scale)) }

        // A refusal.
        ensures refused { IfErr result (λ refused. WhyRefused scale (D.length_of disk) (D.reads disk) refused.1) }
        ensures cause { MatchResult result (λ store. D.faults disk ≡ D.faults store.journal.device) (λ refused. CountsFault (D.faults disk) (D.faults refused.0) refused.1) }
        ensures unchanged { IfErr result (λ refused. IsJudged refused.1 → (D.reads refused.0 ≡ D.reads disk) × FewerImages (D.images disk) (D.images refused.0)) }
        ensures gone { D.gone disk → OnOk result ⊥ }

        // What stays.
        ensures log { MatchResult result (λ store. D.log store.journal.device ≡ D.log disk) (λ refused. D.log refused.0 ≡ D.log disk) }
        ensures len { MatchResult result (λ store. D.length_of store.journal.device ≡ D.length_of disk) (λ refused. D.length_of refused.0 ≡ D.length_of disk) }
    {
        match Journal::open(alloc, disk, scale) {
            Ok((journal, records)) => read_rows(alloc, journal, records),
            Err((disk, why)) => match store_why(why) {
                Some(why) => Err((disk, why)),
                None => format(alloc, disk, scale),
            },
        }
    }
}

/// The store whose records were read.
fn read_rows<D: Disk>(
    alloc: Global,
    journal: Journal<D>,
    records: Vec<Bytes>,
) -> Result<RowStore<D>, (D, StoreWhy)>
    requires stands { Stands D.reads D.images journal records.items }
    requires short { length (blocks records.items) < 2 ^ 32 }
    requires start { journal.start ≡ 4096 }
    ensures journal { IfOk result (λ store. store.journal ≡ journal) }
    ensures found { IfOk result (λ store. held_from None records.items ≡ Ok store.held) }
    ensures fresh { IfOk result (λ store. store.pending ≡ None) }
    ensures device { IfErr result (λ refused. refused.0 ≡ journal.device) }
    ensures refused { IfErr result (λ refused. IsBadAmong records.items refused.1) }
{
    let start = journal.start();
    match read_records(alloc, records) {
        Ok(Found { rows, seq }) => Ok(RowStore::of(alloc, journal, rows, seq)),
        Err(ReadWhy::BadBatch { at }) => {
            let offset = start + at;
            Err((journal.into_disk(), StoreWhy::Damaged { offset }))
        }
        Err(ReadWhy::OutOfMemory) => Err((journal.into_disk(), StoreWhy::NoMemory)),
    }
}

/// The store without rows of a blank device.
fn format<D: Disk>(alloc: Global, disk: D, scale: Scale) -> Result<RowStore<D>, (D, StoreWhy)>
    requires blank { (c : List ℕ) → D.images disk c → IsBlank c }
    requires long { scale_device_len scale ≤ D.length_of disk }
    ensures held { IfOk result (λ store. store.held ≡ nothing) }
    ensures fresh { IfOk result (λ store. store.pending ≡ None) }
    ensures scale { IfOk result (λ store. store.journal.scale ≡ scale) }
    ensures any_moment { MatchResult result (λ store. LeavesOnly D.moment D.images_since disk store.journal.device (BlankOrEmpty scale)) (λ refused. LeavesOnly D.moment D.images_since disk refused.0 (BlankOrEmpty scale)) }
    ensures refused { IfErr result (λ refused. IsFormatWhy refused.1) }
    ensures cause { MatchResult result (λ store. D.faults disk ≡ D.faults store.journal.device) (λ refused. CountsFault (D.faults disk) (D.faults refused.0) refused.1) }
    ensures gone { D.gone disk → OnOk result ⊥ }
    ensures log { MatchResult result (λ store. D.log store.journal.device ≡ D.log disk) (λ refused. D.log refused.0 ≡ D.log disk) }
    ensures len { MatchResult result (λ store. D.length_of store.journal.device ≡ D.length_of disk) (λ refused. D.length_of refused.0 ≡ D.length_of disk) }
{
    match Journal::format(alloc, disk, scale) {
        Ok(journal) => Ok(RowStore::of(alloc, journal, Rows::new(alloc), 0)),
        Err((disk, JournalWhy::DiskFault)) => Err((disk, StoreWhy::DiskFault)),
        Err((disk, _)) => Err((disk, StoreWhy::NoMemory)),
    }
}

/// Why the store isn't opened; None where the journal has found a blank device, which isn't refused.
fn store_why(why: JournalWhy) -> Option<StoreWhy>
    ensures { result ≡ store_why_of why }
{
    match why {
        JournalWhy::Small { len, need } => Some(StoreWhy::Small { len, need }),
        JournalWhy::Blank => None,
        JournalWhy::NotAStore { offset, byte } => Some(StoreWhy::NotAStore { offset, byte }),
        JournalWhy::ScaleDiffers { found, wanted } => Some(StoreWhy::ScaleDiffers {
            found,
            wanted,
        }),
        JournalWhy::Damaged { offset } => Some(StoreWhy::Damaged { offset }),
        JournalWhy::DiskFault => Some(StoreWhy::DiskFault),
        JournalWhy::NoMemory => Some(StoreWhy::NoMemory),
    }
}
