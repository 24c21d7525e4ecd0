//! Bytes in parts between separators.
ghost use Rattle.std.specs.Prelude.{◌≡◌, ◌==◌, ◌<◌, ◌∷◌, [], length, position, MatchOption, IfSome};
ghost use Rattle.std.specs.List.{slice_split};

use memchr::memchr;

/// The position of the first separator, or None if there is none. For long texts: it looks at many bytes at a time, and
/// a call costs some forty instructions.
pub fn position_of(bytes: &[u8], separator: u8) -> Option<usize>
    ensures position { result ≡ position (λ b. b == separator) bytes.now }
    ensures within { IfSome result (λ i. i < length bytes.now) }
{
    memchr(separator, bytes)
}

/// The same for a word, which is short: it looks at one byte at a time.
pub fn position_in_word(bytes: &[u8], separator: u8) -> Option<usize>
    ensures position { result ≡ position (λ b. b == separator) bytes.now }
    ensures within { IfSome result (λ i. i < length bytes.now) }
{
    for (i, b) in bytes.iter().enumerate() {
        if *b == separator {
            return Some(i);
        }
    }
    None
}

/// What comes before the first separator and what comes after it, or None if there is none. For long texts.
pub fn cut_first(bytes: &[u8], separator: u8) -> Option<(&[u8], &[u8])>
    ensures parts { MatchOption result
        (slice_split (λ b. b == separator) bytes.now ≡ bytes.now ∷ [])
        (λ p. slice_split (λ b. b == separator) bytes.now ≡ p.0.now ∷ slice_split (λ b. b == separator) p.1.now) }
    ensures shorter { IfSome result (λ p. length p.1.now < length bytes.now) }
{
    let at = position_of(bytes, separator)?;
    Some((&bytes[..at], &bytes[at + 1..]))
}

/// The same for a word.
pub fn cut_first_in_word(bytes: &[u8], separator: u8) -> Option<(&[u8], &[u8])>
    ensures parts { MatchOption result
        (slice_split (λ b. b == separator) bytes.now ≡ bytes.now ∷ [])
        (λ p. slice_split (λ b. b == separator) bytes.now ≡ p.0.now ∷ slice_split (λ b. b == separator) p.1.now) }
    ensures shorter { IfSome result (λ p. length p.1.now < length bytes.now) }
{
    let at = position_in_word(bytes, separator)?;
    Some((&bytes[..at], &bytes[at + 1..]))
}
