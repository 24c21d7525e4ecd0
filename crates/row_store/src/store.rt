//! A store of rows that is open: a batch changes them, on the device and in memory.
ghost use Rattle.std.specs.Prelude.{◌≡◌, ◌≤◌, ◌<◌, ◌+◌, ◌^◌, ℕ, List, length, drop, Some, None, IfOk, OnOk, ◌∷◌, ◌++◌, [], OnErr};
ghost use Rattle.apex_disk.specs.Disk.{SameImages};
ghost use Rattle.apex_disk.specs.Moments.{LeavesOnly};
ghost use Rattle.apex_disk.specs.declared.disk.Entry.TheVariants.{Armed};
ghost use Rattle.apex_journal.specs.Journal.{half_len, Seen};
ghost use Rattle.row_codec.specs.Batch.{IsBatch, batch_of, batch_text};
ghost use Rattle.row_store.specs.Rows.{Held, next};
ghost use Rattle.row_store.specs.Store.{Holds, Keeps, IsStore};
ghost use Rattle.row_store.specs.Commits.{Commits, CommitCounts, IsFullWhere, MayStore};

use crate::why::CommitWhy;
use apex_disk::{Device, Disk};
use apex_journal::{AppendWhy, Journal};
use row_codec::{Row, push_batch, reading_undoes_spelling};
use row_map::Rows;
use std::alloc::{AllocError, Global};
use std::marker::Model;

/// The rows of a device, which it holds.
#[derive(Drop)]
pub struct RowStore<D: Disk> {
    alloc: Global,
    journal: Journal<D>,
    rows: Rows,
    seq: u64,
    pending: Option<Vec<Row>>,
}

impl<D: Disk> Model for RowStore<D> {
    ghost use Rattle.std.specs.Prelude.{List, option_map};
    ghost use Rattle.std.specs.Ordering.{nat_cmp};
    ghost use Rattle.std.specs.Cmp.Lexicographic.{slice_cmp};
    ghost use Rattle.std.specs.Coded.{codes, coded_list, coded_ℕ};
    ghost use Rattle.std.specs.FinMap as fin;
    ghost use Rattle.row_store.specs.Store.{SeenStore, Holds};

    ghost Value = { SeenStore D };

    ghost coded = { Prim.hlevel (codes, fin.code {R = slice_cmp nat_cmp} (coded_list coded_ℕ) (coded_list coded_ℕ)) };

    ghost view = { λ store. record { journal = store.journal; held = record { rows = store.rows; seq = store.seq }; pending = option_map (λ rows. rows.items) store.pending } };

    ghost invariant = { λ store. Holds D.reads D.images store.journal (record { rows = store.rows; seq = store.seq }) (option_map (λ rows. rows.items) store.pending) };
}

impl<D: Disk> RowStore<D> {
    /// The store of a journal whose records come to these rows, the last under this number.
    pub(crate) fn of(alloc: Global, journal: Journal<D>, rows: Rows, seq: u64) -> Self
        requires { Keeps D.reads D.images journal (record { rows = rows; seq = seq }) }
        ensures journal { result.journal ≡ journal }
        ensures held { result.held ≡ record { rows = rows; seq = seq } }
        ensures pending { result.pending ≡ None }
    {
        RowStore {
            alloc,
            journal,
            rows,
            seq,
            pending: None,
        }
    }

    /// For proofs: what the device has. It does nothing.
    pub fn told(&self)
        ensures holds { Holds D.reads D.images self.now.journal self.now.held self.now.pending }
        ensures store { self.now.pending ≡ None → IsStore D.reads D.images self.now }
    {
        let _ = &self.journal;
    }

    /// The rows, without those of a batch that met a fault.
    pub fn rows(&self) -> &Rows
        ensures { result.now ≡ self.now.held.rows }
    {
        &self.rows
    }

    /// The number of the last batch, or 0.
    pub fn seq(&self) -> u64
        ensures { result ≡ self.now.held.seq }
    {
        self.seq
    }

    /// Changes the rows by one batch, under the number after the last. All memory is taken before the device is called.
    ///
    /// `Closed` comes exactly when an earlier commit answered `DiskFault`, `DiskFault` exactly when the device's count
    /// of faults rose, and `JournalFull` exactly when the half has no room, unless memory ran out before. After any of
    /// these the rows are as they were. After `DiskFault` the store keeps the batch, and the device has it or not.
    pub fn commit(&mut self, rows: Vec<Row>) -> Result<(), CommitWhy>
        requires { IsBatch (record { seq = self.old.held.seq + 1; rows = rows.items }) }
        ensures commits { Commits rows.items self.old self.new result }
        ensures any_moment { self.old.pending ≡ None → LeavesOnly D.moment D.images_since self.old.journal.device self.new.journal.device (MayStore result self.old.journal.scale self.old.held rows.items) }

        // A refusal.
        ensures cause { CommitCounts (D.faults self.old.journal.device) (D.faults self.new.journal.device) result }
        ensures full { IsFullWhere self.old.journal.used (length (batch_text (record { seq = self.old.held.seq + 1; rows = rows.items })) + 5) (half_len self.old.journal.scale) result }

        // What stays.
        ensures gone { D.gone self.old.journal.device → OnOk result ⊥ }
        ensures log { D.log self.new.journal.device ≡ D.log self.old.journal.device }
        ensures len { D.length_of self.new.journal.device ≡ D.length_of self.old.journal.device }
        ensures scale { self.new.journal.scale ≡ self.old.journal.scale }
        ensures start { self.new.journal.start ≡ self.old.journal.start }
    {
        if self.pending.is_some() {
            return Err(CommitWhy::Closed);
        }
        let Ok(bytes) = spelled(self.alloc, self.seq + 1, &rows) else {
            return Err(CommitWhy::NoMemory);
        };
        let Ok(added) = self.rows.make_room(self.alloc, &rows) else {
            return Err(CommitWhy::NoMemory);
        };
        match self.journal.append_in_place(bytes) {
            Ok(()) => {
                drop(added);
                let _ = self.rows.change_all(rows);
                self.seq += 1;
                Ok(())
            }
            Err(AppendWhy::JournalFull { used, need, size }) => {
                self.rows.remove_all(&added);
                Err(CommitWhy::JournalFull { used, need, size })
            }
            Err(AppendWhy::DiskFault) => {
                self.rows.remove_all(&added);
                drop(added);
                self.pending = Some(rows);
                Err(CommitWhy::DiskFault)
            }
            Err(AppendWhy::NoMemory) => {
                self.rows.remove_all(&added);
                Err(CommitWhy::NoMemory)
            }
        }
    }

    /// The device.
    pub fn into_device(self) -> D
        ensures { result ≡ self.journal.device }
    {
        let RowStore {
            alloc: _,
            journal,
            rows: _,
            seq: _,
            pending: _,
        } = self;
        journal.into_disk()
    }
}

impl<D: Device> RowStore<D> {
    /// Lets the power fail at the write of that number from now on, counted from 1, as the device's `arm` does. The
    /// rows stay as they are.
    pub fn arm(&mut self, writes: u32, pick: u32) -> Result<(), AllocError>
        ensures armed { OnOk result (D.log self.new.journal.device ≡ D.log self.old.journal.device ++ Armed writes pick ∷ []) }
        ensures refused { OnErr result (D.log self.new.journal.device ≡ D.log self.old.journal.device) }
        ensures any_moment { LeavesOnly D.moment D.images_since self.old.journal.device self.new.journal.device (D.images self.old.journal.device) }

        // What stays.
        ensures held { self.new.held ≡ self.old.held }
        ensures pending { self.new.pending ≡ self.old.pending }
        ensures reads { D.reads self.new.journal.device ≡ D.reads self.old.journal.device }
        ensures images { SameImages (D.images self.old.journal.device) (D.images self.new.journal.device) }
        ensures faults { D.faults self.new.journal.device ≡ D.faults self.old.journal.device }
        ensures gone { D.gone self.old.journal.device → D.gone self.new.journal.device }
        ensures len { D.length_of self.new.journal.device ≡ D.length_of self.old.journal.device }
        ensures scale { self.new.journal.scale ≡ self.old.journal.scale }
        ensures start { self.new.journal.start ≡ self.old.journal.start }
        ensures used { self.new.journal.used ≡ self.old.journal.used }
    {
        self.journal.arm(writes, pick)
    }
}

/// The spelling of a batch, after the room that an append takes.
fn spelled(alloc: Global, seq: u64, rows: &[Row]) -> Result<Vec<u8>, AllocError>
    requires { IsBatch (record { seq = seq; rows = rows.now }) }
    ensures len { IfOk result (λ bytes. length bytes.items ≡ length (batch_text (record { seq = seq; rows = rows.now })) + 4) }
    ensures read { IfOk result (λ bytes. batch_of (drop 4 bytes.items) ≡ Some (record { seq = seq; rows = rows.now })) }
{
    reading_undoes_spelling();
    let mut bytes = Vec::new(alloc);
    bytes.extend_from_slice(&[0; 4])?;
    push_batch(seq, rows, &mut bytes)?;
    Ok(bytes)
}
