//! A device in memory, for tests and for runs without a file. It tells everything: its bytes, what a crash may leave at
//! each moment, its steps, and by its clauses which calls fail and what becomes of each byte.
ghost use Rattle.std.specs.Prelude.{◌≡◌, ◌+◌, ◌-◌, ◌^◌, [], Some, min, map, length, replicate, IfOk, vec_len, vec_capacity};
ghost use Rattle.apex_disk.specs.Content.{MayLeave};
ghost use Rattle.apex_disk.specs.Memory.{Since, only_content, told_left, DoesRead, DoesWrite, DoesSync, DoesArm, DoesCycle, IsFresh};
ghost use mathlib.Core.Logic.{inl};

use crate::arm::Arm;
use crate::content::{Content, Step};
use crate::disk::{Device, Disk, Entry};
use crate::meter::Meter;
use apex_base::Failed;
use std::alloc::{AllocError, Global};
use std::marker::Model;
use std::snapshot::Snapshot;

/// A disk in memory. What it held before each step it knows in no memory, for contracts alone.
#[derive(Drop)]
pub struct MemDisk {
    content: Content,
    past: Vec<Snapshot<Content>>,
    steps: Vec<Step>,
    meter: Meter,
    log: Vec<Entry>,
}

impl Model for MemDisk {
    ghost use Rattle.std.specs.Prelude.{◌-◌, min, map, vec_len, vec_capacity};
    ghost use Rattle.apex_disk.specs.Content.{IsSound};
    ghost use Rattle.apex_disk.specs.Memory.{Mem};

    ghost Value = { Mem };

    ghost view = { λ disk. record {
      content = disk.content;
      past = map (λ p. p.value) disk.past.items;
      steps = disk.steps.items;
      meter = disk.meter;
      log = disk.log.items;
      spare = min (min (vec_capacity disk.content.pending - vec_len disk.content.pending) (vec_capacity disk.past - vec_len disk.past)) (min (vec_capacity disk.steps - vec_len disk.steps) (vec_capacity disk.log - vec_len disk.log));
    } };

    ghost invariant = { λ disk. IsSound disk.content };
}

impl MemDisk {
    /// A disk of these bytes, all of them synced. The calls of the numbers in `fails` fail and do nothing: reads,
    /// writes and syncs, counted together from 1.
    pub fn of(alloc: Global, bytes: Vec<u8>, fails: Vec<u64>) -> Result<Self, AllocError>
        ensures { IfOk result (λ disk. IsFresh disk bytes.items fails) }
    {
        Ok(MemDisk {
            content: Content {
                synced: bytes.to_vec(alloc)?,
                bytes,
                pending: Vec::new(alloc),
            },
            past: Vec::new(alloc),
            steps: Vec::new(alloc),
            meter: Meter::of(fails),
            log: Vec::new(alloc),
        })
    }

    /// A disk of so many zeros.
    pub fn blank(alloc: Global, len: u64, fails: Vec<u64>) -> Result<Self, AllocError>
        ensures { IfOk result (λ disk. IsFresh disk (replicate len 0) fails) }
    {
        let bytes = vec![in alloc; 0u8; len as usize]?;
        MemDisk::of(alloc, bytes, fails)
    }

    /// What reads give.
    pub fn bytes(&self) -> &[u8]
        ensures { result.now ≡ self.now.content.bytes.items }
    {
        &self.content.bytes
    }

    /// The writes and syncs that were made since the last cycle, in order.
    pub fn steps(&self) -> &[Step]
        ensures { result.now ≡ self.now.steps }
    {
        &self.steps
    }

    /// Each cut that was armed and each cycle, in order.
    pub fn log(&self) -> &[Entry]
        ensures { result.now ≡ self.now.log }
    {
        &self.log
    }
}

impl Disk for MemDisk {
    ghost reads = { λ disk. Some disk.content.bytes.items };

    ghost images = { λ disk c. MayLeave disk.content c };

    ghost moment = { λ disk. length disk.past };

    ghost images_since = { λ disk t c. Since disk t c };

    ghost faults = { λ disk. disk.meter.faults };

    ghost gone = { λ disk. ⊥ };

    ghost log = { λ disk. disk.log };

    ghost length_of = { λ disk. length disk.content.bytes.items };

    ghost spare_calls = { λ disk. disk.spare };

    ghost spare_bytes = { λ disk. 2 ^ 64 };

    ghost read_does = { λ old new result. DoesRead old new result };

    ghost write_does = { λ old new at bytes result. DoesWrite old new at bytes result };

    ghost sync_does = { λ old new result. DoesSync old new result };

    ghost counts_now = { λ disk t c le now. inl now };

    ghost only_now = { λ disk c left. only_content disk c left };

    ghost images_long = { λ disk c left. left.0 };

    ghost reads_left = { λ disk file is. told_left disk.content file is };

    fn len(&self) -> u64 {
        self.content.bytes.len() as u64
    }

    fn faults(&self) -> u64 {
        self.meter.faults
    }

    fn reserve(&mut self, calls: u32, _bytes: u64) -> Result<(), AllocError> {
        let calls = calls as usize;
        self.content.pending.reserve(calls)?;
        self.past.reserve(calls)?;
        self.steps.reserve(calls)?;
        self.log.reserve(calls)?;
        Ok(())
    }

    fn read(&mut self, at: u64, into: &mut [u8]) -> Result<(), Failed> {
        if self.meter.refuses() {
            return Err(Failed);
        }
        let at = at as usize;
        into.copy_from_slice(&self.content.bytes[at..at + into.len()]);
        Ok(())
    }

    fn write(&mut self, at: u64, bytes: &[u8]) -> Result<(), Failed> {
        if self.meter.refuses() {
            return Err(Failed);
        }
        self.past.push_reserved(Snapshot::of(&self.content));
        self.steps.push_reserved(Step::Wrote {
            at,
            len: bytes.len() as u64,
        });
        self.content.write(at, bytes);
        if self.meter.stops() {
            return Err(Failed);
        }
        Ok(())
    }

    fn sync(&mut self) -> Result<(), Failed> {
        if self.meter.refuses() {
            return Err(Failed);
        }
        self.past.push_reserved(Snapshot::of(&self.content));
        self.steps.push_reserved(Step::Synced);
        self.content.sync();
        Ok(())
    }
}

impl Device for MemDisk {
    ghost arm_does = { λ old new writes pick. DoesArm old new writes pick };

    ghost cycle_does = { λ old new. DoesCycle old new };

    fn arm(&mut self, writes: u32, pick: u32) -> Result<(), AllocError> {
        let spare = self.log.capacity() - self.log.len();
        self.log.reserve(spare.saturating_add(1))?;
        self.log.push_reserved(Entry::Armed { writes, pick });
        self.meter.arm = self.meter.arm.armed(writes, pick);
        Ok(())
    }

    fn cycle(&mut self) {
        self.log.push_reserved(Entry::Cycled {
            count: self.meter.faults,
        });
        let pick = self.meter.arm.pick();
        self.meter.arm = Arm::Off;
        self.content.cycle(pick);
        self.past.clear();
        self.steps.clear();
    }
}
