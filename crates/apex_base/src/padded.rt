//! Short texts whose bytes are in the value itself, so that a copy takes no memory.
ghost use Rattle.std.specs.Prelude.{◌≡◌, ◌≤◌, length};

use std::marker::Model;

/// At most `N` bytes, followed by zeros.
#[derive(Clone, Copy)]
pub struct ShortText<const N: usize> {
    bytes: [u8; N],
    len: u8,
}

impl<const N: usize> Model for ShortText<N> {
    ghost use Rattle.std.specs.Prelude.{List, ℕ, take};

    ghost Value = { List ℕ };

    ghost use Rattle.apex_base.specs.Padded.{IsPadded, padded, padded-take};

    ghost view = { λ text. take text.len text.bytes };

    ghost invariant = { IsPadded N };

    ghost inverse = { padded N };

    ghost inverse_ok = { padded-take N };
}

impl<const N: usize> ShortText<N> {
    /// The text.
    pub fn of(text: &[u8]) -> Self
        requires fits { length text.now ≤ N }
        requires counted { N ≤ 255 }
        ensures { result ≡ text.now }
    {
        let mut bytes = [0; N];
        bytes[..text.len()].copy_from_slice(text);
        ShortText {
            bytes,
            len: text.len() as u8,
        }
    }

    /// The bytes of the text, without the zeros.
    pub fn as_bytes(&self) -> &[u8]
        ensures { result.now ≡ self.now }
    {
        &self.bytes[..usize::from(self.len)]
    }
}
