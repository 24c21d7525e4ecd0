//! What a line says after its first word. `draft` decides where a line may stand.
ghost use Rattle.std.specs.Prelude.{◌≡◌, Ok, Err, MatchResult};
ghost use Rattle.device_script.specs.Lines.{read_or, scale_words, print_words, part_words, boot_words, submit_words};
ghost use Rattle.device_script.specs.Lines.{id_words, success_words, label_words, path_words, bare_words};
ghost use Rattle.device_script.specs.Words.{words_of};

mod files;

use crate::fault::LineFault;
use crate::split::{is_bare, one_word, three_words, two_words};
use crate::words::{PartWord, id, is_plain_kind, part, scale, time, workers};
use apex_base::{FilePath, Millis, Name, Print, Scale, SessionId};
pub use files::{file_words, text_said};

/// Of a `scale` line: the scale. As of each line, the fault is `Words` if there is another number of words, otherwise
/// `BadWord` with the number of the first word that can't be read, where the line's first word is number 1.
#[tactic(auto, unfolding(crate::specs::Lines::scale_words))]
pub fn scale_words(rest: &[u8]) -> Result<Scale, LineFault>
    ensures { result ≡ scale_words (words_of rest.now) }
{
    let word = one_word(rest).ok_or(LineFault::Words)?;
    read_or(2, scale(word))
}

/// Of an `image` line: the build's fingerprint.
#[tactic(auto, unfolding(crate::specs::Lines::print_words))]
pub fn print_words(rest: &[u8]) -> Result<Print, LineFault>
    ensures { result ≡ print_words (words_of rest.now) }
{
    let word = one_word(rest).ok_or(LineFault::Words)?;
    read_or(2, Print::read(word))
}

/// Of a `pre` line: how it names the module.
#[tactic(auto, unfolding(crate::specs::Lines::part_words))]
pub fn part_words(rest: &[u8]) -> Result<PartWord, LineFault>
    ensures { result ≡ part_words (words_of rest.now) }
{
    let word = one_word(rest).ok_or(LineFault::Words)?;
    read_or(2, part(word))
}

/// Of a `boot` line: a moment in milliseconds, and a number of workers.
#[tactic(auto, unfolding(crate::specs::Lines::boot_words))]
pub fn boot_words(rest: &[u8]) -> Result<(Millis, u32), LineFault>
    ensures { result ≡ boot_words (words_of rest.now) }
{
    let (moment, count) = two_words(rest).ok_or(LineFault::Words)?;
    let time = read_or(2, time(moment))?;
    let workers = read_or(3, workers(count))?;
    Ok((time, workers))
}

/// Of a `submit` line: an id, `plain`, and how it names the module.
#[tactic(auto, unfolding(crate::specs::Lines::submit_words))]
pub fn submit_words(rest: &[u8]) -> Result<(SessionId, PartWord), LineFault>
    ensures { result ≡ submit_words (words_of rest.now) }
{
    let (number, kind, module) = three_words(rest).ok_or(LineFault::Words)?;
    let id = read_or(2, id(number))?;
    if !is_plain_kind(kind) {
        return Err(LineFault::BadWord { word: 3 });
    }
    let part = read_or(4, part(module))?;
    Ok((id, part))
}

/// Of a `ready`, an `abort` or a `state` line: a session's id.
#[tactic(auto, unfolding(crate::specs::Lines::id_words))]
pub fn id_words(rest: &[u8]) -> Result<SessionId, LineFault>
    ensures { result ≡ id_words (words_of rest.now) }
{
    let word = one_word(rest).ok_or(LineFault::Words)?;
    read_or(2, id(word))
}

/// Of a `success` line: a moment in milliseconds, and a session's id.
#[tactic(auto, unfolding(crate::specs::Lines::success_words))]
pub fn success_words(rest: &[u8]) -> Result<(Millis, SessionId), LineFault>
    ensures { result ≡ success_words (words_of rest.now) }
{
    let (moment, number) = two_words(rest).ok_or(LineFault::Words)?;
    let time = read_or(2, time(moment))?;
    let id = read_or(3, id(number))?;
    Ok((time, id))
}

/// Of a `module` line: the label.
#[tactic(auto, unfolding(crate::specs::Lines::label_words))]
pub fn label_words(rest: &[u8]) -> Result<Name, LineFault>
    ensures { result ≡ label_words (words_of rest.now) }
{
    let word = one_word(rest).ok_or(LineFault::Words)?;
    read_or(2, Name::read(word))
}

/// Of a `remove` line: the file's path.
#[tactic(auto, unfolding(crate::specs::Lines::path_words))]
pub fn path_words(rest: &[u8]) -> Result<FilePath, LineFault>
    ensures { result ≡ path_words (words_of rest.now) }
{
    let word = one_word(rest).ok_or(LineFault::Words)?;
    read_or(2, FilePath::read(word))
}

/// Of a `seal` or a `done` line: nothing more.
#[tactic(auto, unfolding(crate::specs::Lines::bare_words))]
pub fn bare_words(rest: &[u8]) -> Result<(), LineFault>
    ensures { MatchResult result
        (λ _. bare_words (words_of rest.now) ≡ Ok tt)
        (λ fault. bare_words (words_of rest.now) ≡ Err fault) }
{
    if is_bare(rest) {
        Ok(())
    } else {
        Err(LineFault::Words)
    }
}

/// What was read of the word with this number, or the fault that it couldn't be read.
fn read_or<T: Drop>(word: u32, read: Option<T>) -> Result<T, LineFault>
    ensures { result ≡ read_or word read }
{
    read.ok_or(LineFault::BadWord { word })
}
