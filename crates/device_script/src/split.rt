//! The words of a line, if it has a given number of them. They are cut one by one.
ghost use Rattle.std.specs.Prelude.{◌≡◌, Some, None, IsTrue, is_some, MatchOption};
ghost use Rattle.device_script.specs.Lines.{no_word, one_word, two_words, three_words};
ghost use Rattle.device_script.specs.Words.{words_of};

use crate::words::{cut_long_word, cut_word};

/// Whether there is no word.
pub fn is_bare(rest: &[u8]) -> bool
    ensures { result ≡ is_some (no_word (words_of rest.now)) }
{
    cut_word(rest).is_none()
}

/// The word of a line that has one; None if it has fewer or more.
pub fn one_word(rest: &[u8]) -> Option<&[u8]>
    ensures { MatchOption result
        (one_word (words_of rest.now) ≡ None)
        (λ word. one_word (words_of rest.now) ≡ Some word.now) }
{
    let (word, rest) = cut_word(rest)?;
    if is_bare(rest) { Some(word) } else { None }
}

/// The words of a line that has two; None if it has fewer or more.
pub fn two_words(rest: &[u8]) -> Option<(&[u8], &[u8])>
    ensures { MatchOption result
        (two_words (words_of rest.now) ≡ None)
        (λ both. two_words (words_of rest.now) ≡ Some (both.0.now, both.1.now)) }
{
    let (first, rest) = cut_word(rest)?;
    let (second, rest) = cut_word(rest)?;
    if is_bare(rest) {
        Some((first, second))
    } else {
        None
    }
}

/// The same for a second word that may be long.
pub fn word_and_long_word(rest: &[u8]) -> Option<(&[u8], &[u8])>
    ensures { MatchOption result
        (two_words (words_of rest.now) ≡ None)
        (λ both. two_words (words_of rest.now) ≡ Some (both.0.now, both.1.now)) }
{
    let (first, rest) = cut_word(rest)?;
    let (second, rest) = cut_long_word(rest)?;
    if is_bare(rest) {
        Some((first, second))
    } else {
        None
    }
}

/// The words of a line that has three; None if it has fewer or more.
pub fn three_words(rest: &[u8]) -> Option<(&[u8], &[u8], &[u8])>
    ensures { MatchOption result
        (three_words (words_of rest.now) ≡ None)
        (λ all. three_words (words_of rest.now) ≡ Some (all.0.now, all.1.now, all.2.now)) }
{
    let (first, rest) = cut_word(rest)?;
    let (second, rest) = cut_word(rest)?;
    let (third, rest) = cut_word(rest)?;
    if is_bare(rest) {
        Some((first, second, third))
    } else {
        None
    }
}
