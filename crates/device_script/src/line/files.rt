//! A path and a content, in hexadecimal or byte by byte.
ghost use Rattle.device_script.specs.Lines.{file_words, text_said};
ghost use Rattle.apex_base.specs.Answers.{Answers};
ghost use Rattle.device_script.specs.Words.{words_of};

use super::read_or;
use crate::fault::{LineError, LineFault};
use crate::split::word_and_long_word;
use crate::words::{content, cut_word};
use apex_base::{Bytes, FilePath};
use std::alloc::Global;

/// Of a `file` line: a path, and a content in hexadecimal. Beside the faults of a line, memory may run out.
#[tactic(auto, unfolding(crate::specs::Lines::file_words))]
pub fn file_words(alloc: Global, rest: &[u8]) -> Result<(FilePath, Bytes), LineError>
    ensures { Answers result (file_words (words_of rest.now)) }
{
    let (word, digits) = word_and_long_word(rest).ok_or(LineFault::Words)?;
    let path = read_or(2, FilePath::read(word))?;
    let content = content(alloc, digits)?;
    let content = read_or(3, content)?;
    Ok((path, content))
}

/// Of a `text` line: a path, and a content, which is what comes after the path and one space. It is copied once.
#[tactic(auto, unfolding(crate::specs::Lines::text_said))]
pub fn text_said(alloc: Global, rest: &[u8]) -> Result<(FilePath, Bytes), LineError>
    ensures { Answers result (text_said rest.now) }
{
    let (word, content) = cut_word(rest).ok_or(LineFault::Words)?;
    let path = read_or(2, FilePath::read(word))?;
    let content = Bytes::shared(alloc, content.to_vec(alloc)?)?;
    Ok((path, content))
}
