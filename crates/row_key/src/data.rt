//! Rows of data: tag 6. A key is a name after its length, and the value's own key. The fronts of these keys, and of those
//! of what sessions keep, end with the name.
ghost use Rattle.std.specs.Prelude.{◌≡◌, ◌+◌, ◌<◌, ◌^◌};
ghost use Rattle.std.specs.Option.{option_map};
ghost use Rattle.apex_base.specs.Text.{is_name};
ghost use Rattle.row_key.specs.Data.{is_data_row, front_by, front_of, up_to_name};

use crate::kept::{PRE_RESTORE, SNAPSHOT};
use apex_base::{Name, short_at};

/// The tag of the rows of data.
pub const DATA: u8 = 6;

/// Whether a row of tag 6 is right, by its key without the tag.
pub fn is_data_row(key: &[u8]) -> bool
    ensures { result ≡ is_data_row key.now }
{
    match short_at(key) {
        Some((name, rest)) => is_name(name) && is_name(rest),
        None => false,
    }
}

fn is_name(text: &[u8]) -> bool
    ensures { result ≡ is_name text.now }
{
    Name::read(text).is_some()
}

/// The front of a key, if it is of data or of what a session keeps.
pub fn front_of(key: &[u8]) -> Option<&[u8]>
    ensures { option_map (λ front. front.now) result ≡ front_of key.now }
{
    match key {
        [] => None,
        [tag, ..] => front_by(*tag, key),
    }
}

fn front_by(tag: u8, key: &[u8]) -> Option<&[u8]>
    ensures { option_map (λ front. front.now) result ≡ front_by tag key.now }
{
    match tag {
        DATA => up_to_name(1, key),
        SNAPSHOT | PRE_RESTORE => up_to_name(5, key),
        _ => None,
    }
}

/// A key up to the end of the name whose length stands at this place.
fn up_to_name(place: usize, key: &[u8]) -> Option<&[u8]>
    requires { place < 2 ^ 8 }
    ensures { option_map (λ front. front.now) result ≡ up_to_name place key.now }
{
    let len = key.get(place)?;
    let end = place + 1 + usize::from(*len);
    Some(if end < key.len() { &key[..end] } else { key })
}
