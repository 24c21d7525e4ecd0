//! The bytes of a disk in memory. A sync costs the ranges that were written since the last one, never the whole length.
ghost use Rattle.std.specs.Prelude.{◌≡◌, ◌≤◌, ◌<◌, ◌+◌, ◌-◌, ◌∷◌, ◌++◌, [], ℕ, length, slice_index, vec_len, vec_capacity};
ghost use Rattle.apex_disk.specs.Disk.{written};
ghost use Rattle.apex_disk.specs.Content.{Covered, Agrees, Within};

use crate::pick::pick_ranges;

/// A range of offsets.
#[derive(Clone, Copy, Debug, PartialEq, Eq)]
pub struct Range {
    pub at: u64,
    pub len: u64,
}

/// A write or a sync that was made.
#[derive(Clone, Copy, Debug, PartialEq, Eq)]
pub enum Step {
    Wrote { at: u64, len: u64 },
    Synced,
}

/// The newest bytes, those of the last sync, and the ranges that were written since.
#[derive(Drop)]
pub struct Content {
    pub bytes: Vec<u8>,
    pub synced: Vec<u8>,
    pub pending: Vec<Range>,
}

fn overwrite(bytes: &mut [u8], at: usize, new: &[u8])
    requires { at + length new.now ≤ length bytes.old }
    ensures { bytes.new ≡ written at new.now bytes.old }
{
    bytes[at..at + new.len()].copy_from_slice(new);
}

/// Copies the ranges, outside of which both have the same bytes.
fn copy_ranges(ranges: &[Range], from: &[u8], to: &mut [u8])
    requires agrees { Agrees to.old ranges.now from.now }
    requires within { Within (length from.now) ranges.now }
    ensures { to.new ≡ from.now }
{
    for range in ranges {
        let at = range.at as usize;
        let end = at + range.len as usize;
        overwrite(to, at, &from[at..end]);
    }
}

impl Content {
    ghost use Rattle.apex_disk.specs.Content.{IsSound, MayLeave};
    ghost use Rattle.apex_disk.specs.Pick.{picked};

    /// Changes the newest bytes. It needs room for one range.
    pub fn write(&mut self, at: u64, new: &[u8])
        requires range { at + length new.now ≤ length self.old.bytes.items }
        requires room { vec_len self.old.pending < vec_capacity self.old.pending }
        requires sound { IsSound self.old }
        ensures bytes { self.new.bytes.items ≡ written at new.now self.old.bytes.items }
        ensures synced { self.new.synced.items ≡ self.old.synced.items }
        ensures pending { self.new.pending.items ≡ self.old.pending.items ++ record { at = at; len = length new.now } ∷ [] }
        ensures sound { IsSound self.new }
        ensures room { vec_capacity self.new.pending - vec_len self.new.pending + 1 ≡ vec_capacity self.old.pending - vec_len self.old.pending }
    {
        overwrite(&mut self.bytes, at as usize, new);
        self.pending.push_reserved(Range {
            at,
            len: new.len() as u64,
        });
    }

    /// Makes the newest bytes those of the last sync.
    pub fn sync(&mut self)
        requires { IsSound self.old }
        ensures bytes { self.new.bytes.items ≡ self.old.bytes.items }
        ensures synced { self.new.synced.items ≡ self.old.bytes.items }
        ensures pending { self.new.pending.items ≡ [] }
        ensures sound { IsSound self.new }
        ensures room { vec_capacity self.old.pending - vec_len self.old.pending ≤ vec_capacity self.new.pending - vec_len self.new.pending }
    {
        copy_ranges(&self.pending, &self.bytes, &mut self.synced);
        self.pending.clear();
    }

    /// The power comes back: each byte that wasn't synced is picked, and then all are.
    pub fn cycle(&mut self, pick: u32)
        requires { IsSound self.old }
        ensures pending_bytes { (k : ℕ) → Covered self.old.pending.items k → slice_index self.new.bytes.items k ≡ picked pick k (slice_index self.old.bytes.items k) (slice_index self.old.synced.items k) }
        ensures other_bytes { (k : ℕ) → (Covered self.old.pending.items k → ⊥) → slice_index self.new.bytes.items k ≡ slice_index self.old.bytes.items k }
        ensures left { MayLeave self.old self.new.bytes.items }
        ensures synced { self.new.synced.items ≡ self.new.bytes.items }
        ensures pending { self.new.pending.items ≡ [] }
        ensures long { length self.new.bytes.items ≡ length self.old.bytes.items }
        ensures sound { IsSound self.new }
        ensures room { vec_capacity self.old.pending - vec_len self.old.pending ≤ vec_capacity self.new.pending - vec_len self.new.pending }
    {
        pick_ranges(&self.pending, pick, &self.synced, &mut self.bytes);
        self.sync();
    }
}
