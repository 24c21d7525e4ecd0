//! What all keys have: a tag of one byte, and bytes after it.
ghost use Rattle.std.specs.Prelude.{◌≡◌};
ghost use Rattle.apex_base.specs.RowSums.{has_tag};
ghost use Rattle.row_key.specs.RowBytes.{FitRow};

/// Whether a key is one of the rows of a tag.
pub fn has_tag(key: &[u8], tag: u8) -> bool
    ensures { result ≡ has_tag tag key.now }
{
    match key {
        [first, ..] => *first == tag,
        [] => false,
    }
}

/// States for proofs that a row's key and value are bytes. It does nothing.
pub fn known_bytes(key: &[u8], value: &[u8])
    ensures { FitRow (key.now, value.now) }
{}
