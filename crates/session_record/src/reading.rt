//! Texts and moments in bytes. Each reader gives what it reads, and what follows that.
ghost use Rattle.std.specs.Prelude.{◌≡◌};
ghost use Rattle.std.specs.Option.{option_map};
ghost use Rattle.apex_base.specs.Spelling.{name_at, print_at, moment_at};

use apex_base::{Millis, Name, Print, short_at, u64_at};

/// A name after its length in one byte, and what follows it. None if the bytes are no name, or too few.
#[tactic(auto, unfolding(apex_base::specs::Spelling::name_at))]
pub fn name_at(bytes: &[u8]) -> Option<(Name, &[u8])>
    ensures { option_map (λ found. (found.0, found.1.now)) result ≡ name_at bytes.now }
{
    let (text, rest) = short_at(bytes)?;
    let name = Name::read(text)?;
    Some((name, rest))
}

/// A fingerprint after its length in one byte, and what follows it. None if the bytes are none, or too few.
#[tactic(auto, unfolding(apex_base::specs::Spelling::print_at))]
pub fn print_at(bytes: &[u8]) -> Option<(Print, &[u8])>
    ensures { option_map (λ found. (found.0, found.1.now)) result ≡ print_at bytes.now }
{
    let (text, rest) = short_at(bytes)?;
    let print = Print::read(text)?;
    Some((print, rest))
}

/// A moment in eight bytes, and what follows it. None if it is out of range, or there are fewer.
#[tactic(auto, unfolding(apex_base::specs::Spelling::moment_at))]
pub fn moment_at(bytes: &[u8]) -> Option<(Millis, &[u8])>
    ensures { option_map (λ found. (found.0, found.1.now)) result ≡ moment_at bytes.now }
{
    let (number, rest) = u64_at(bytes)?;
    let moment = Millis::new(number)?;
    Some((moment, rest))
}
