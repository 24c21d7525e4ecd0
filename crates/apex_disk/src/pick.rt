//! What the power's return makes of bytes that weren't synced.
ghost use Rattle.std.specs.Prelude.{◌≡◌, ◌≤◌, ◌<◌, ◌+◌, ℕ, length, slice_index};
ghost use Rattle.apex_disk.specs.Content.{Covered, Within};
ghost use Rattle.apex_disk.specs.Pick.{picked};

use crate::content::Range;

fn pick_byte(pick: u32, at: u64, newest: u8, synced: u8) -> u8
    ensures { result ≡ picked pick at newest synced }
{
    if pick == 0 {
        return synced;
    }
    if pick == 1 {
        return newest;
    }
    let third = (at as u128 + pick as u128) % 3;
    if third == 0 {
        return newest;
    }
    if third == 1 {
        return synced;
    }
    ((7 * at as u128 + pick as u128) % 256) as u8
}

fn pick_range(at: usize, end: usize, pick: u32, synced: &[u8], bytes: &mut [u8])
    requires order { at ≤ end }
    requires within { end ≤ length bytes.old }
    requires long { length synced.now ≡ length bytes.old }
    ensures inside { (k : ℕ) → at ≤ k → k < end → slice_index bytes.new k ≡ picked pick k (slice_index bytes.old k) (slice_index synced.now k) }
    ensures below { (k : ℕ) → k < at → slice_index bytes.new k ≡ slice_index bytes.old k }
    ensures above { (k : ℕ) → end ≤ k → slice_index bytes.new k ≡ slice_index bytes.old k }
{
    for i in at..end {
        bytes[i] = pick_byte(pick, i as u64, bytes[i], synced[i]);
    }
}

/// Picks each byte of the ranges. A byte that two ranges cover is picked twice, which changes nothing.
pub(crate) fn pick_ranges(ranges: &[Range], pick: u32, synced: &[u8], bytes: &mut [u8])
    requires within { Within (length bytes.old) ranges.now }
    requires long { length synced.now ≡ length bytes.old }
    ensures inside { (k : ℕ) → Covered ranges.now k → slice_index bytes.new k ≡ picked pick k (slice_index bytes.old k) (slice_index synced.now k) }
    ensures others { (k : ℕ) → (Covered ranges.now k → ⊥) → slice_index bytes.new k ≡ slice_index bytes.old k }
{
    for range in ranges {
        let at = range.at as usize;
        let end = at + range.len as usize;
        pick_range(at, end, pick, synced, bytes);
    }
}
