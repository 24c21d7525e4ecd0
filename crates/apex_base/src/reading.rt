//! Numbers and short texts in bytes. Each reader gives what it reads, and what follows that. None takes memory.
ghost use Rattle.std.specs.Prelude.{◌≡◌};
ghost use Rattle.std.specs.Int.{w32, w64};
ghost use Rattle.std.specs.Option.{option_map};
ghost use Rattle.apex_base.specs.Reading.{byte_at, bytes_at, number_at, short_at};

/// One byte, and what follows it, or None at the end.
pub fn byte_at(bytes: &[u8]) -> Option<(u8, &[u8])>
    ensures { option_map (λ found. (found.0, found.1.now)) result ≡ byte_at bytes.now }
{
    match bytes {
        [] => None,
        [first, rest @ ..] => Some((*first, rest)),
    }
}

/// Four bytes, the first of which weighs most, and what follows them. None if there are fewer.
#[tactic(auto, unfolding(crate::specs::Reading::number_at, crate::specs::Reading::bytes_at))]
pub fn u32_at(bytes: &[u8]) -> Option<(u32, &[u8])>
    ensures { option_map (λ found. (found.0, found.1.now)) result ≡ number_at w32 bytes.now }
{
    let (digits, rest) = bytes.split_first_chunk::<4>()?;
    Some((u32::from_be_bytes(*digits), rest))
}

/// Eight bytes, the first of which weighs most, and what follows them. None if there are fewer.
#[tactic(auto, unfolding(crate::specs::Reading::number_at, crate::specs::Reading::bytes_at))]
pub fn u64_at(bytes: &[u8]) -> Option<(u64, &[u8])>
    ensures { option_map (λ found. (found.0, found.1.now)) result ≡ number_at w64 bytes.now }
{
    let (digits, rest) = bytes.split_first_chunk::<8>()?;
    Some((u64::from_be_bytes(*digits), rest))
}

/// So many bytes, and what follows them. None if there are fewer.
#[tactic(auto, unfolding(crate::specs::Reading::bytes_at))]
pub fn bytes_at(n: usize, bytes: &[u8]) -> Option<(&[u8], &[u8])>
    ensures { option_map (λ found. (found.0.now, found.1.now)) result ≡ bytes_at n bytes.now }
{
    bytes.split_at_checked(n)
}

/// A text after its length in one byte, and what follows it. None if there are fewer bytes.
#[tactic(auto, unfolding(crate::specs::Reading::short_at))]
pub fn short_at(bytes: &[u8]) -> Option<(&[u8], &[u8])>
    ensures { option_map (λ found. (found.0.now, found.1.now)) result ≡ short_at bytes.now }
{
    match bytes {
        [] => None,
        [len, rest @ ..] => bytes_at(usize::from(*len), rest),
    }
}
