//! The words of a line, and what single words say.
ghost use Rattle.std.specs.Prelude.{◌≡◌, ◌==◌, ◌&&◌, ◌<◌, ◌≤◌, ◌∷◌, [], length, position, if◌then◌else◌, nat_le};
ghost use Rattle.std.specs.Prelude.{MatchOption, IfSome, IfOk, Some, None, option_map};
ghost use Rattle.std.specs.List.{list_all};
ghost use Rattle.device_script.specs.Words.{words_of, is_digit, decimal_value, number_of, scale_of, id_of, time_of};
ghost use Rattle.device_script.specs.Words.{workers_of, content_of, short_of, part_of, is_plain_kind, cut_at};
ghost use Rattle.device_script.specs.Words.{cut_at_space, cut_word};

mod hexadecimal;

use apex_base::{Bytes, Millis, Name, Scale, SessionId, Version, position_in_word, position_of};
use hexadecimal::bytes_of;
use std::alloc::{AllocError, Global};

/// How a word names a module.
#[derive(Clone, Copy)]
pub enum PartWord {
    /// `NAME@VERSION`: the module of the short form.
    Short { name: Name, version: Version },
    /// `$LABEL`: the module of the last block of that label.
    Label(Name),
}

/// The first word, and what comes after the one space that ends it; None if there is no word.
pub fn cut_word(line: &[u8]) -> Option<(&[u8], &[u8])>
    ensures cut { option_map (λ p. (p.0.now, p.1.now)) result ≡ cut_word line.now }
    ensures words { MatchOption result (words_of line.now ≡ []) (λ p. words_of line.now ≡ p.0.now ∷ words_of p.1.now) }
{
    let rest = after_spaces(line)?;
    Some(cut_at(position_in_word(rest, b' '), rest))
}

/// The same for a word that may be long, as a file's digits are.
pub fn cut_long_word(line: &[u8]) -> Option<(&[u8], &[u8])>
    ensures cut { option_map (λ p. (p.0.now, p.1.now)) result ≡ cut_word line.now }
    ensures words { MatchOption result (words_of line.now ≡ []) (λ p. words_of line.now ≡ p.0.now ∷ words_of p.1.now) }
{
    let rest = after_spaces(line)?;
    Some(cut_at(position_of(rest, b' '), rest))
}

/// A scale: `small` or `standard`.
pub fn scale(word: &[u8]) -> Option<Scale>
    ensures { result ≡ scale_of word.now }
{
    if word == b"small".as_slice() {
        Some(Scale::Small)
    } else if word == b"standard".as_slice() {
        Some(Scale::Standard)
    } else {
        None
    }
}

/// A session's id: a whole number from 0 to 4294967295.
pub fn id(word: &[u8]) -> Option<SessionId>
    ensures { result ≡ id_of word.now }
{
    let n = number(word, 4294967295)?;
    Some(SessionId(n as u32))
}

/// A moment: 0 to 9007199254740991 milliseconds.
pub fn time(word: &[u8]) -> Option<Millis>
    ensures { result ≡ time_of word.now }
{
    Millis::new(number(word, 9007199254740991)?)
}

/// A number of workers: 1 to 64.
pub fn workers(word: &[u8]) -> Option<u32>
    ensures { result ≡ workers_of word.now }
{
    let n = number(word, 64)?;
    if n >= 1 { Some(n as u32) } else { None }
}

/// Whether the word is `plain`, the only kind of session so far.
pub fn is_plain_kind(word: &[u8]) -> bool
    ensures { result ≡ is_plain_kind word.now }
{
    match word.as_array::<5>() {
        None => false,
        Some(word) => word == b"plain",
    }
}

/// The bytes that a word in hexadecimal spells, no bytes for a hyphen, and None for any other word. Fails only if memory
/// runs out.
pub fn content(alloc: Global, word: &[u8]) -> Result<Option<Bytes>, AllocError>
    ensures { IfOk result (λ content. content ≡ content_of word.now) }
{
    if word == b"-".as_slice() {
        return Ok(Some(Bytes::new(alloc)));
    }
    match bytes_of(alloc, word)? {
        Some(bytes) => Ok(Some(Bytes::shared(alloc, bytes)?)),
        None => Ok(None),
    }
}

/// How a module is named: `$LABEL` or `NAME@VERSION`.
pub fn part(word: &[u8]) -> Option<PartWord>
    ensures { result ≡ part_of word.now }
{
    match word {
        [] => None,
        [first, label @ ..] => {
            if *first != b'$' {
                return short(word);
            }
            Some(PartWord::Label(Name::read(label)?))
        }
    }
}

/// The short form: `NAME@VERSION`.
#[tactic(auto, unfolding(crate::specs::Words::short_of))]
fn short(word: &[u8]) -> Option<PartWord>
    ensures { result ≡ short_of word.now }
{
    let at = position_in_word(word, b'@')?;
    let name = Name::read(&word[..at])?;
    let number = number(&word[at + 1..], 9223372036854775807)?;
    let version = Version::new(number)?;
    Some(PartWord::Short { name, version })
}

#[tactic(auto, unfolding(crate::specs::Words::number_of))]
fn number(digits: &[u8], most: u64) -> Option<u64>
    ensures value { result ≡ number_of most digits.now }
    ensures small { IfSome result (λ n. n ≤ most) }
{
    if digits.is_empty() {
        return None;
    }
    if digits.len() > 1 && digits[0] == b'0' {
        return None;
    }
    let n = value(digits)?;
    if n <= most { Some(n) } else { None }
}

/// The number that digits spell; None if a byte isn't a digit, or the number has more than 64 bits.
fn value(digits: &[u8]) -> Option<u64>
    ensures { result ≡ (if list_all is_digit digits.now && nat_le (decimal_value digits.now) 18446744073709551615
        then Some (decimal_value digits.now)
        else None) }
{
    let mut n: u64 = 0;
    for b in digits {
        let digit = b.wrapping_sub(b'0');
        if digit > 9 {
            return None;
        }
        n = n.checked_mul(10)?.checked_add(u64::from(digit))?;
    }
    Some(n)
}

/// What comes before this position and what comes after it; everything and nothing if there is none.
fn cut_at(at: Option<usize>, bytes: &[u8]) -> (&[u8], &[u8])
    requires { IfSome at (λ i. i < length bytes.now) }
    ensures { (result.0.now, result.1.now) ≡ cut_at at bytes.now }
{
    match at {
        None => (bytes, &bytes[bytes.len()..]),
        Some(at) => (&bytes[..at], &bytes[at + 1..]),
    }
}

/// The line from its first byte on that isn't a space; None if there is no such byte.
fn after_spaces(line: &[u8]) -> Option<&[u8]>
    ensures cut { option_map (λ rest. cut_at_space rest.now) result ≡ cut_word line.now }
    ensures words { MatchOption result (words_of line.now ≡ [])
        (λ rest. words_of line.now ≡ (cut_at_space rest.now).0 ∷ words_of (cut_at_space rest.now).1) }
{
    for (i, b) in line.iter().enumerate() {
        if *b != b' ' {
            return Some(&line[i..]);
        }
    }
    None
}
