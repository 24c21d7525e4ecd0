//! Names and fingerprints. Their bytes are in the value itself, so that a copy takes no memory.
ghost use Rattle.std.specs.Prelude.{◌≡◌, ◌≤◌, length, IsTrue, nat_eq, refl};
ghost use Rattle.std.specs.List.{list_all};
ghost use Rattle.std.specs.Ordering.{nat_cmp, as_partial_cmp};
ghost use Rattle.std.specs.Cmp;
ghost use Rattle.std.specs.Str.{bytes_eq};
ghost use Rattle.std.specs.Cmp.Lexicographic.{slice_cmp, pointwise, nat_list_eq_equiv, nat_list_cmp_total, texts_ties};
ghost use Rattle.std.specs.Cmp.Lexicographic.{texts_po};
ghost use Rattle.std.specs.Hash as fed;
ghost use Rattle.std.specs.Hash.{items_Alike};
ghost use Rattle.std.proofs.Common.{ap};
ghost use Rattle.std.proofs.lemmas.Bool.{eqb-true};
ghost use Rattle.apex_base.specs.Text.{is_name, is_name_byte, is_print, is_print_byte, name_of, print_of};

use crate::padded::ShortText;
use std::cmp::Ordering;
use std::hash::{Hash, Hasher};
use std::marker::Model;

const CAPACITY: usize = 64;

/// A name of a module, an observer, a data key or a label: 1 to 64 bytes of `A-Z a-z 0-9 _ .`. Names are
/// ordered by their bytes.
#[derive(Clone, Copy)]
pub struct Name {
    text: ShortText<64>,
}

impl Model for Name {
    ghost use Rattle.std.specs.Prelude.{List, ℕ, IsTrue};
    ghost use Rattle.apex_base.specs.Text.{is_name};

    ghost Value = { List ℕ };

    ghost view = { λ name. name.text };

    ghost invariant = { λ name. IsTrue (is_name name.text) };

    ghost inverse = { λ bytes. record { text = bytes } };
}

impl Name {
    /// The name that the bytes spell, or None if they aren't a name.
    pub fn read(bytes: &[u8]) -> Option<Self>
        ensures { result ≡ name_of bytes.now }
    {
        if is_name(bytes) {
            Some(Name {
                text: ShortText::of(bytes),
            })
        } else {
            None
        }
    }

    /// The bytes.
    pub fn as_bytes(&self) -> &[u8]
        ensures bytes { result.now ≡ self.now }
        ensures name { IsTrue (is_name self.now) }
    {
        self.text.as_bytes()
    }

    /// Whether the two are one name.
    pub fn is_same(&self, other: &Name) -> bool
        ensures { result ≡ bytes_eq self.now other.now }
    {
        self.as_bytes() == other.as_bytes()
    }
}

impl PartialEq for Name {
    ghost eq = { pointwise nat_eq };

    ghost laws = { Cmp.partial_equiv_from_equiv nat_list_eq_equiv };

    fn eq(&self, other: &Name) -> bool {
        self.as_bytes() == other.as_bytes()
    }
}

impl Eq for Name {
    ghost laws = { nat_list_eq_equiv };
}

impl PartialOrd for Name {
    ghost partial_cmp = { as_partial_cmp (slice_cmp nat_cmp) };

    ghost laws = { texts_po };

    fn partial_cmp(&self, other: &Name) -> Option<Ordering> {
        Some(self.cmp(other))
    }
}

impl Ord for Name {
    ghost cmp = { slice_cmp nat_cmp };

    ghost total = { nat_list_cmp_total };

    ghost matches_partial_cmp = { λ x y. refl };

    ghost matches_eq = { texts_ties };

    fn cmp(&self, other: &Name) -> Ordering {
        self.as_bytes().cmp(other.as_bytes())
    }
}

impl Hash for Name {
    ghost hash_input = { λ name. fed.slice fed.u8 name };

    ghost respects_eq = { (items_Alike (record { fed = λ x y e. ap fed.u8 (eqb-true x y e) })).fed };

    fn hash<H: Hasher>(&self, state: &mut H) {
        self.as_bytes().hash(state);
    }
}

/// A build's fingerprint: 1 to 64 bytes of 0x21 to 0x7e.
#[derive(Clone, Copy)]
pub struct Print {
    text: ShortText<64>,
}

impl Model for Print {
    ghost use Rattle.std.specs.Prelude.{List, ℕ, IsTrue};
    ghost use Rattle.apex_base.specs.Text.{is_print};

    ghost Value = { List ℕ };

    ghost view = { λ print. print.text };

    ghost invariant = { λ print. IsTrue (is_print print.text) };

    ghost inverse = { λ bytes. record { text = bytes } };
}

impl Print {
    /// The fingerprint that the bytes spell, or None if they aren't one.
    pub fn read(bytes: &[u8]) -> Option<Self>
        ensures { result ≡ print_of bytes.now }
    {
        if is_print(bytes) {
            Some(Print {
                text: ShortText::of(bytes),
            })
        } else {
            None
        }
    }

    /// The bytes.
    pub fn as_bytes(&self) -> &[u8]
        ensures bytes { result.now ≡ self.now }
        ensures print { IsTrue (is_print self.now) }
    {
        self.text.as_bytes()
    }

    /// Whether the two are of one build.
    pub fn is_same(&self, other: &Print) -> bool
        ensures { result ≡ bytes_eq self.now other.now }
    {
        self.as_bytes() == other.as_bytes()
    }
}

#[tactic(auto, unfolding(crate::specs::Text::is_short_text))]
fn is_print(bytes: &[u8]) -> bool
    ensures value { result ≡ is_print bytes.now }
    ensures short { IsTrue result → length bytes.now ≤ 64 }
{
    if bytes.is_empty() {
        return false;
    }
    if bytes.len() > CAPACITY {
        return false;
    }
    all_print_bytes(bytes)
}

#[tactic(auto, unfolding(crate::specs::Text::is_short_text))]
fn is_name(bytes: &[u8]) -> bool
    ensures value { result ≡ is_name bytes.now }
    ensures short { IsTrue result → length bytes.now ≤ 64 }
{
    if bytes.is_empty() {
        return false;
    }
    if bytes.len() > CAPACITY {
        return false;
    }
    all_name_bytes(bytes)
}

/// Whether all bytes are printable and none is a space.
pub(crate) fn all_print_bytes(bytes: &[u8]) -> bool
    ensures { result ≡ list_all is_print_byte bytes.now }
{
    let mut all = true;
    for b in bytes {
        all = all & is_print_byte(*b);
    }
    all
}

/// Whether all bytes may stand in a name. The loop has no early exit, so that it looks at many bytes at a time.
fn all_name_bytes(bytes: &[u8]) -> bool
    ensures { result ≡ list_all is_name_byte bytes.now }
{
    let mut all = true;
    for b in bytes {
        all = all & is_name_byte(*b);
    }
    all
}

fn is_print_byte(b: u8) -> bool
    ensures { result ≡ is_print_byte b }
{
    b.is_ascii_graphic()
}

fn is_name_byte(b: u8) -> bool
    ensures { result ≡ is_name_byte b }
{
    b.is_ascii_uppercase() | b.is_ascii_lowercase() | b.is_ascii_digit() | (b == b'_') | (b == b'.')
}
