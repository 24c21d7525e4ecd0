//! What the records of a journal come to: the rows of their batches.
ghost use Rattle.std.specs.Prelude.{◌≡◌, ◌<◌, ◌^◌, None, length, IfOk};
ghost use Rattle.std.specs.FinMap as fin;
ghost use Rattle.apex_journal.specs.Records.{blocks};
ghost use Rattle.row_store.specs.Rows.{IsTaken, may_follow, so_far_of};
ghost use Rattle.row_store.specs.Opening.{AreRead};

use apex_base::Bytes;
use row_codec::decode_batch;
use row_map::Rows;
use std::alloc::{AllocError, Global};

/// The rows of all batches, and the number of the last one, or 0.
#[derive(Drop)]
pub struct Found {
    pub rows: Rows,
    pub seq: u64,
}

/// Why records have no rows.
#[derive(Clone, Copy, Debug, PartialEq, Eq)]
pub enum ReadWhy {
    /// The record whose gate stands at that offset of the half is no batch with the number that follows.
    BadBatch { at: u64 },

    OutOfMemory,
}

/// The rows of the batches so far, and the number of the last one.
#[derive(Drop)]
struct Replay {
    rows: Rows,
    last: Option<u64>,
}

impl Replay {
    fn expects(&self, seq: u64) -> bool
        ensures { result ≡ may_follow (so_far_of self.now.rows self.now.last) seq }
    {
        match self.last {
            None => true,
            Some(last) => seq.checked_sub(last) == Some(1),
        }
    }

    /// Whether the record is a batch that may follow; its rows are taken then.
    fn take(&mut self, alloc: Global, bytes: &[u8]) -> Result<bool, AllocError>
        requires { self.old.last ≡ None → self.old.rows ≡ fin.empty }
        ensures { IfOk result (IsTaken (so_far_of self.old.rows self.old.last) bytes.now (so_far_of self.new.rows self.new.last)) }
    {
        let Some(batch) = decode_batch(alloc, bytes)? else {
            return Ok(false);
        };
        if !self.expects(batch.seq) {
            return Ok(false);
        }
        self.rows.change_all(batch.rows.into_vec())?;
        self.last = Some(batch.seq);
        Ok(true)
    }
}

/// Reads the records of a half in order, as batches.
pub(crate) fn read_records(alloc: Global, records: Vec<Bytes>) -> Result<Found, ReadWhy>
    requires { length (blocks records.items) < 2 ^ 32 }
    ensures { AreRead records.items result }
{
    let mut replay = Replay {
        rows: Rows::new(alloc),
        last: None,
    };
    let mut at = 0;
    for record in records {
        match replay.take(alloc, record.as_slice()) {
            Ok(true) => at += 5 + record.as_slice().len() as u64,
            Ok(false) => return Err(ReadWhy::BadBatch { at }),
            Err(_) => return Err(ReadWhy::OutOfMemory),
        }
    }
    let Replay { rows, last } = replay;
    let seq = last.unwrap_or(0);
    Ok(Found { rows, seq })
}
