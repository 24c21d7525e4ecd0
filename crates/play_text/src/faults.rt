//! What is wrong with a module, in the words of the text: `docs/formats/text.md`.
ghost use Rattle.std.specs.Prelude.{◌≡◌, ◌++◌, OnOk, codes};
ghost use Rattle.hex.specs.Hex.{encode_lower};
ghost use Rattle.apex_world.specs.Text.{fault_text};

use crate::words::{push_word_number, push_words};
use apex_base::ModuleFault;
use module_digest::digits_of;
use std::alloc::AllocError;

#[tactic(auto, using(std::proofs::lemmas::Grind::common_steps), unfolding(apex_world::specs::Text::fault_text))]
pub fn push_fault(line: &mut Vec<u8>, fault: &ModuleFault) -> Result<(), AllocError>
    ensures { OnOk result (line.new.items ≡ line.old.items ++ fault_text fault.now) }
{
    match fault {
        ModuleFault::NoManifest => line.extend_from_slice(b"no-manifest"),
        ModuleFault::NotJson => line.extend_from_slice(b"not-json"),
        ModuleFault::NoName => line.extend_from_slice(b"no-name"),
        ModuleFault::BadName => line.extend_from_slice(b"bad-name"),
        ModuleFault::NoVersion => line.extend_from_slice(b"no-version"),
        ModuleFault::BadVersion => line.extend_from_slice(b"bad-version"),
        ModuleFault::NoListing => line.extend_from_slice(b"no-listing"),
        ModuleFault::BadListing { line: number } => {
            push_word_number(line, b"bad-listing ", u64::from(*number))
        }
        ModuleFault::Unlisted { path } => push_words(line, b"unlisted ", path.as_bytes()),
        ModuleFault::Absent { path } => push_words(line, b"absent ", path.as_bytes()),
        ModuleFault::Differs {
            path,
            listed,
            actual,
        } => {
            push_words(line, b"differs ", path.as_bytes())?;
            push_digest(line, listed)?;
            push_digest(line, actual)
        }
    }
}

/// A space, and a digest.
fn push_digest(line: &mut Vec<u8>, digest: &[u8; 32]) -> Result<(), AllocError>
    ensures { OnOk result (line.new.items ≡ line.old.items ++ (codes " " ++ encode_lower digest.now)) }
{
    line.extend_from_slice(b" ")?;
    line.extend_from_slice(&digits_of(digest))?;
    Ok(())
}
