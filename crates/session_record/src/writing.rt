//! Numbers and short texts, added at the end of bytes.
ghost use Rattle.std.specs.Prelude.{◌∷◌, ◌≤◌, ◌++◌, length, OnOk};
ghost use Rattle.apex_base.specs.Reading.{four_text, eight_text, short_text};
ghost use Rattle.session_record.specs.Pushed.{Pushed};

use apex_base::{Name, Print};
use std::alloc::AllocError;

fn push_bytes(bytes: &[u8], into: &mut Vec<u8>) -> Result<(), AllocError>
    ensures { OnOk result (Pushed into.old.items into.new.items (λ rest. bytes.now ++ rest)) }
{
    into.extend_from_slice(bytes)
}

/// Adds one byte. Fails only if memory runs out, as all that follow.
pub fn push_byte(byte: u8, into: &mut Vec<u8>) -> Result<(), AllocError>
    ensures { OnOk result (Pushed into.old.items into.new.items (λ rest. byte ∷ rest)) }
{
    push_bytes(&[byte], into)
}

/// Adds four bytes, the first of which weighs most.
pub fn push_four(number: u32, into: &mut Vec<u8>) -> Result<(), AllocError>
    ensures { OnOk result (Pushed into.old.items into.new.items (four_text number)) }
{
    push_bytes(&number.to_be_bytes(), into)
}

/// Adds eight bytes, the first of which weighs most.
pub fn push_eight(number: u64, into: &mut Vec<u8>) -> Result<(), AllocError>
    ensures { OnOk result (Pushed into.old.items into.new.items (eight_text number)) }
{
    push_bytes(&number.to_be_bytes(), into)
}

/// Adds a name after its length.
#[tactic(auto, using(crate::proofs::Texts::name_short))]
pub fn push_name(name: &Name, into: &mut Vec<u8>) -> Result<(), AllocError>
    ensures { OnOk result (Pushed into.old.items into.new.items (short_text name.now)) }
{
    push_short(name.as_bytes(), into)
}

/// Adds a fingerprint after its length.
#[tactic(auto, using(crate::proofs::Texts::print_short))]
pub fn push_print(print: &Print, into: &mut Vec<u8>) -> Result<(), AllocError>
    ensures { OnOk result (Pushed into.old.items into.new.items (short_text print.now)) }
{
    push_short(print.as_bytes(), into)
}

/// A text after its length in one byte.
fn push_short(bytes: &[u8], into: &mut Vec<u8>) -> Result<(), AllocError>
    requires { length bytes.now ≤ 64 }
    ensures { OnOk result (Pushed into.old.items into.new.items (short_text bytes.now)) }
{
    push_byte(bytes.len() as u8, into)?;
    push_bytes(bytes, into)
}
