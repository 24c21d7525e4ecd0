//! Reads a source to its end, or until it has given more bytes than a script may have.
ghost use Rattle.std.specs.Prelude.{◌≡◌, ◌≤◌, ◌<◌, ◌+◌, [], Ok, true, false, length, vec_len, IfOk, OnOk, IfSome, IsErrOf};
ghost use Rattle.apex_base.specs.Causes.{Rose};
ghost use Rattle.device_play.specs.Source.{Moved, Ended, TakesAtMost};

use apex_base::Source;
use std::alloc::{AllocError, Global};

/// The most bytes that a script may have.
const LIMIT: usize = 16777216;

/// The most bytes of one read.
const PIECE: usize = 65536;

/// Why a source couldn't be read to its end.
#[derive(Clone, Copy, Debug, PartialEq, Eq)]
pub enum ReadFailed {
    Source,
    TooLong,
    NoMemory,
}

/// Reads a piece of at most so many bytes to the end of a text, and says whether there was one.
fn read_piece<S: Source>(
    source: &mut S,
    buffer: &mut [u8],
    most: usize,
    text: &mut Vec<u8>,
) -> Result<bool, ReadFailed>
    requires some { 0 < most }
    requires room { most ≤ length buffer.old }
    ensures moved { OnOk result (Moved (S.left source.old) (S.left source.new) text.old.items text.new.items) }
    ensures more { result ≡ Ok true → vec_len text.old < vec_len text.new }
    ensures little { vec_len text.new ≤ vec_len text.old + most }
    ensures end { result ≡ Ok false → Ended (S.left source.old) (S.left source.new) }
    ensures few { (¬ IsErrOf result ReadFailed.Source) → TakesAtMost most (S.left source.old) (S.left source.new) }
    ensures cause { IsErrOf result ReadFailed.Source → Rose (S.faults source.old) (S.faults source.new) }
    ensures short { IsErrOf result ReadFailed.TooLong → ⊥ }
    ensures later { S.faults source.old ≤ S.faults source.new }
{
    let space = &mut buffer[..most];
    match source.read(space) {
        Err(_) => Err(ReadFailed::Source),
        Ok(0) => Ok(false),
        Ok(n) => match text.extend_from_slice(&space[..n]) {
            Err(_) => Err(ReadFailed::NoMemory),
            Ok(()) => Ok(true),
        },
    }
}

fn new_buffer(alloc: Global) -> Result<Vec<u8>, AllocError>
    ensures { IfOk result (λ buffer. vec_len buffer ≡ PIECE) }
{
    vec![in alloc; 0u8; PIECE]
}

/// All that is left of a source, where it isn't longer than a script may be. Each turn of the loop takes a byte,
/// ends the input or fails, and at most one byte more than a script may have is taken.
pub fn read_all<S: Source>(alloc: Global, source: &mut S) -> Result<Vec<u8>, ReadFailed>
    ensures all { IfOk result (λ text. Moved (S.left source.old) (S.left source.new) [] text.items) }
    ensures end { OnOk result (Ended (S.left source.old) (S.left source.new)) }
    ensures few { (¬ IsErrOf result ReadFailed.Source) → TakesAtMost 16777217 (S.left source.old) (S.left source.new) }
    ensures long { IsErrOf result ReadFailed.TooLong → IfSome (S.left source.old) (λ all. 16777216 < length all) }
    ensures cause { IsErrOf result ReadFailed.Source → Rose (S.faults source.old) (S.faults source.new) }
    ensures later { S.faults source.old ≤ S.faults source.new }
{
    let mut text = Vec::new(alloc);
    let Ok(mut buffer) = new_buffer(alloc) else {
        return Err(ReadFailed::NoMemory);
    };
    while text.len() <= LIMIT {
        let most = PIECE.min(LIMIT + 1 - text.len());
        match read_piece(source, &mut buffer, most, &mut text) {
            Err(why) => return Err(why),
            Ok(false) => return Ok(text),
            Ok(true) => {}
        }
    }
    Err(ReadFailed::TooLong)
}
