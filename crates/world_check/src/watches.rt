//! Rows of watches: how many there are, and when they end.
ghost use Rattle.std.specs.Prelude.{◌≡◌, Decides};
ghost use Rattle.std.specs.Option.{is_some};
ghost use Rattle.std.specs.FinMap as fin;
ghost use Rattle.apex_base.specs.Numbers.{scale_modules};
ghost use Rattle.apex_world.specs.Opened.{opened, end_of};
ghost use Rattle.row_check.specs.BadRows.{opened_rows};
ghost use Rattle.world_check.specs.LawfulParts.{HasLawfulWatches};
ghost use Rattle.world_check.specs.WatchRows.{is_in_time, left_after, left_after_all};

use apex_base::{Scale, u64_at};
use row_key::{WATCH, has_tag};
use row_map::Rows;

/// A moment and a duration are at most this together.
const LAST_END: u64 = 18014398509481982;

/// Whether watches are within the scale, and each ends at most a duration after a moment.
pub(crate) fn are_lawful_watches(rows: &Rows, scale: Scale) -> bool
    requires right { opened_rows rows.now scale ≡ rows.now }
    ensures { Decides result (HasLawfulWatches (opened rows.now scale)) }
{
    are_within(rows, 8 * scale.modules())
}

/// Whether there are at most so many rows of watches, and each ends in time.
fn are_within(rows: &Rows, most: u32) -> bool
    ensures { result ≡ is_some (left_after_all (Some most) (fin.entries rows.now)) }
{
    let mut left = most;
    for (key, value) in rows.by_key() {
        match left_after(left, key.as_slice(), value.as_slice()) {
            Some(after) => left = after,
            None => return false,
        }
    }
    true
}

/// How many watches there may still be after a row.
fn left_after(left: u32, key: &[u8], value: &[u8]) -> Option<u32>
    ensures { result ≡ left_after left (key.now, value.now) }
{
    if !has_tag(key, WATCH) {
        return Some(left);
    }
    if !is_in_time(value) {
        return None;
    }
    left.checked_sub(1)
}

#[tactic(auto, unfolding(apex_world::specs::Opened::end_of))]
fn is_in_time(value: &[u8]) -> bool
    ensures { result ≡ is_in_time (end_of value.now) }
{
    match u64_at(value) {
        Some((end, [])) => end <= LAST_END,
        _ => true,
    }
}
