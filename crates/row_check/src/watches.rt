//! Rows of watches.
ghost use Rattle.std.specs.Prelude.{◌≡◌};
ghost use Rattle.std.specs.Option.{is_some};
ghost use Rattle.apex_world.specs.Opened.{end_of};
ghost use Rattle.row_check.specs.RightRows.{is_watch_row};

use apex_base::u64_at;
use row_key::is_data_row;

/// Whether a row of tag 9 is right, by its key without the tag.
pub fn is_watch_row(key: &[u8], value: &[u8]) -> bool
    ensures { result ≡ is_watch_row key.now value.now }
{
    is_data_row(key) && is_end(value)
}

#[tactic(auto, unfolding(apex_world::specs::Opened::end_of))]
fn is_end(value: &[u8]) -> bool
    ensures { result ≡ is_some (end_of value.now) }
{
    match u64_at(value) {
        Some((_, rest)) => rest.is_empty(),
        None => false,
    }
}
