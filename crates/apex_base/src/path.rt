//! Paths of files in a module: `docs/formats/module.md`. Their bytes are in the value itself.
ghost use Rattle.std.specs.Prelude.{◌≡◌, ◌≤◌, ◌==◌, codes, length, IsTrue, nat_eq, refl};
ghost use Rattle.std.specs.List.{list_all, slice_split};
ghost use Rattle.std.specs.Ordering.{nat_cmp, as_partial_cmp};
ghost use Rattle.std.specs.Cmp;
ghost use Rattle.std.specs.Cmp.Lexicographic.{slice_cmp, pointwise, nat_list_eq_equiv, nat_list_cmp_total, texts_ties};
ghost use Rattle.std.specs.Cmp.Lexicographic.{texts_po};
ghost use Rattle.apex_base.specs.Text.{is_path, is_segment, path_of};

use crate::cut::cut_first_in_word;
use crate::padded::ShortText;
use crate::text::all_print_bytes;
use std::cmp::Ordering;
use std::fmt;
use std::marker::Model;
use std::str::from_utf8;

const CAPACITY: usize = 128;

/// A file's path: 1 to 128 bytes, one or more segments joined by `/`. A segment is one or more bytes of
/// 0x21 to 0x7e but `/`, and isn't `.` or `..`. Paths are ordered by their bytes.
#[derive(Clone, Copy)]
pub struct FilePath {
    text: ShortText<128>,
}

impl Model for FilePath {
    ghost use Rattle.std.specs.Prelude.{List, ℕ, IsTrue};
    ghost use Rattle.apex_base.specs.Text.{is_path};

    ghost Value = { List ℕ };

    ghost view = { λ path. path.text };

    ghost invariant = { λ path. IsTrue (is_path path.text) };

    ghost inverse = { λ bytes. record { text = bytes } };
}

impl FilePath {
    /// The path that the bytes spell, or None if they aren't a path.
    pub fn read(bytes: &[u8]) -> Option<Self>
        ensures { result ≡ path_of bytes.now }
    {
        if is_path(bytes) {
            Some(FilePath {
                text: ShortText::of(bytes),
            })
        } else {
            None
        }
    }

    /// The path of a module's manifest.
    pub fn manifest() -> Self
        ensures { result ≡ codes "apex_manifest.json" }
    {
        FilePath {
            text: ShortText::of(b"apex_manifest.json"),
        }
    }

    /// The path of a module's listing.
    pub fn listing() -> Self
        ensures { result ≡ codes "apex_digests" }
    {
        FilePath {
            text: ShortText::of(b"apex_digests"),
        }
    }

    /// The path of a module's public key.
    pub fn key() -> Self
        ensures { result ≡ codes "apex_pubkey" }
    {
        FilePath {
            text: ShortText::of(b"apex_pubkey"),
        }
    }

    /// States for proofs that the bytes are a path. It does nothing.
    pub(crate) fn known(&self)
        ensures { IsTrue (is_path self.now) }
    {
        let _ = &self.text;
    }

    /// The bytes.
    pub fn as_bytes(&self) -> &[u8]
        ensures bytes { result.now ≡ self.now }
        ensures path { IsTrue (is_path self.now) }
    {
        self.text.as_bytes()
    }
}

impl PartialEq for FilePath {
    ghost eq = { pointwise nat_eq };

    ghost laws = { Cmp.partial_equiv_from_equiv nat_list_eq_equiv };

    fn eq(&self, other: &FilePath) -> bool {
        self.as_bytes() == other.as_bytes()
    }
}

impl Eq for FilePath {
    ghost laws = { nat_list_eq_equiv };
}

impl PartialOrd for FilePath {
    ghost partial_cmp = { as_partial_cmp (slice_cmp nat_cmp) };

    ghost laws = { texts_po };

    fn partial_cmp(&self, other: &FilePath) -> Option<Ordering> {
        Some(self.cmp(other))
    }
}

impl Ord for FilePath {
    ghost cmp = { slice_cmp nat_cmp };

    ghost total = { nat_list_cmp_total };

    ghost matches_partial_cmp = { λ x y. refl };

    ghost matches_eq = { texts_ties };

    fn cmp(&self, other: &FilePath) -> Ordering {
        self.as_bytes().cmp(other.as_bytes())
    }
}

impl fmt::Display for FilePath {
    fn fmt<W: fmt::Write>(&self, f: &mut fmt::Formatter<W>) -> fmt::Result {
        match from_utf8(self.as_bytes()) {
            Ok(text) => f.write_str(text),
            Err(_) => Err(fmt::Error),
        }
    }
}

impl fmt::Debug for FilePath {
    fn fmt<W: fmt::Write>(&self, f: &mut fmt::Formatter<W>) -> fmt::Result {
        fmt::Display::fmt(self, f)
    }
}

#[tactic(auto, unfolding(crate::specs::Text::is_path))]
fn is_path(bytes: &[u8]) -> bool
    ensures value { result ≡ is_path bytes.now }
    ensures short { IsTrue result → length bytes.now ≤ 128 }
{
    if bytes.len() > CAPACITY {
        return false;
    }
    all_segments(bytes)
}

fn all_segments(bytes: &[u8]) -> bool
    ensures { result ≡ list_all is_segment (slice_split (λ b. b == 47) bytes.now) }
{
    let mut rest = bytes;
    while let Some((segment, after)) = cut_first_in_word(rest, b'/') {
        if !is_segment(segment) {
            return false;
        }
        rest = after;
    }
    is_segment(rest)
}

fn is_segment(bytes: &[u8]) -> bool
    ensures { result ≡ is_segment bytes.now }
{
    if bytes.is_empty() {
        return false;
    }
    if bytes == b".".as_slice() {
        return false;
    }
    if bytes == b"..".as_slice() {
        return false;
    }
    all_print_bytes(bytes)
}
