//! The script that bytes spell, or their first bad line.
ghost use Rattle.std.specs.Prelude.{◌≡◌, ◌≤◌, ◌<◌, length, IfOk};
ghost use Rattle.std.specs.Str.Lines.{strip_carriage_return, lines};
ghost use Rattle.apex_world.specs.Orders.{HasOrders};
ghost use Rattle.apex_world.specs.Playable.{IsPlayable};
ghost use Rattle.device_script.specs.Script.{is_passed, is_plain, words_read, line_read, lines_read, script_of};
ghost use Rattle.device_script.specs.Script.{error_at, ReadsAs};
ghost use Rattle.device_script.specs.Draft.{start};
ghost use Rattle.apex_base.specs.Answers.{Becomes};

use crate::draft::Draft;
use crate::fault::{LineError, LineFault, ScriptWhy};
use crate::keyword::keyword_of;
use crate::words::cut_word;
use apex_base::cut_first;
use apex_world::Script;
use std::alloc::Global;

/// The most bytes that a script may have.
const LIMIT: usize = 16777216;

/// The script that the bytes spell, in the format of `docs/formats/script.md`. The error is `Bad` with the first bad
/// line, counted from 1, and what is wrong with it; or `NoMemory`, which may be answered at any time.
pub fn read_script(alloc: Global, bytes: &[u8]) -> Result<Script, ScriptWhy>
    ensures script { ReadsAs result (script_of bytes.now) }

    // Boots and steps of a script can be numbered, since it isn't long, and a segment has each lane number once.
    ensures playable { IfOk result IsPlayable }

    // A script is too short for as many boots as a device can have.
    ensures few_boots { IfOk result (λ script. length script.boots < 4000000000) }

    // Each boot is at the script's scale, its order is as a boot asks, and it has 1 to 64 workers.
    ensures orders { IfOk result HasOrders }
{
    Ok(read(alloc, bytes)?)
}

#[tactic(auto, unfolding(crate::specs::Script::script_of))]
fn read(alloc: Global, bytes: &[u8]) -> Result<Script, ScriptWhy>
    ensures { ReadsAs result (script_of bytes.now) }
{
    if bytes.len() > LIMIT {
        return Err(ScriptWhy::Bad {
            line: 0,
            why: LineFault::TooLong,
        });
    }
    read_lines(alloc, bytes)?.finish()
}

/// Reads lines into a draft, the first of which is line 1.
fn read_lines(alloc: Global, bytes: &[u8]) -> Result<Draft, ScriptWhy>
    requires { length bytes.now ≤ LIMIT }
    ensures { ReadsAs result (lines_read 1 start (lines bytes.now)) }
{
    let mut draft = Draft::start(alloc);
    let mut rest = bytes;
    let mut number: u32 = 1;
    while let Some((line, after)) = cut_first(rest, b'\n') {
        if let Err(e) = read_line(&mut draft, alloc, number, without_return(line)) {
            return Err(error_at(number, e));
        }
        number += 1;
        rest = after;
    }
    if rest.is_empty() {
        return Ok(draft);
    }
    match read_line(&mut draft, alloc, number, rest) {
        Err(e) => Err(error_at(number, e)),
        Ok(()) => Ok(draft),
    }
}

/// Reads the line with this number into the draft.
#[tactic(auto, unfolding(crate::specs::Script::line_read))]
fn read_line(draft: &mut Draft, alloc: Global, number: u32, line: &[u8]) -> Result<(), LineError>
    ensures { Becomes result draft.new (line_read draft.old number line.now) }
{
    if is_passed(line) {
        Ok(())
    } else {
        read_words(draft, alloc, number, line)
    }
}

/// Reads a line with this number that isn't passed over into the draft. It is a function of its own, so that a comment
/// doesn't pay for what a line of words needs.
#[inline(never)]
fn read_words(draft: &mut Draft, alloc: Global, number: u32, line: &[u8]) -> Result<(), LineError>
    ensures { Becomes result draft.new (words_read draft.old number line.now) }
{
    if !is_plain(line) {
        return Err(LineError::Fault(LineFault::BadByte));
    }
    let (word, rest) = cut_word(line).ok_or(LineFault::UnknownWord)?;
    let keyword = keyword_of(word).ok_or(LineFault::UnknownWord)?;
    if draft.is_not_yet(keyword, rest) {
        return Err(LineError::Fault(LineFault::NotYet));
    }
    if !draft.may_stand(keyword) {
        return Err(LineError::Fault(LineFault::BadPlace));
    }
    draft.take(alloc, number, keyword, rest)
}

/// The error of a line, with the line's number.
fn error_at(line: u32, e: LineError) -> ScriptWhy
    ensures { result ≡ error_at line e }
{
    match e {
        LineError::Fault(why) => ScriptWhy::Bad { line, why },
        LineError::NoMemory => ScriptWhy::NoMemory,
    }
}

fn without_return(line: &[u8]) -> &[u8]
    ensures { result.now ≡ strip_carriage_return line.now }
{
    if line.is_empty() {
        return line;
    }
    let last = line.len() - 1;
    if line[last] == b'\r' {
        &line[..last]
    } else {
        line
    }
}

/// Whether every byte is printable. The loop has no early exit, so that it looks at many bytes at a time.
fn is_plain(line: &[u8]) -> bool
    ensures { result ≡ is_plain line.now }
{
    let mut plain = true;
    for b in line {
        plain = plain & (*b >= 32) & (*b <= 126);
    }
    plain
}

/// Whether a line is passed over: it has no word, or its first word begins with a number sign.
fn is_passed(line: &[u8]) -> bool
    ensures { result ≡ is_passed line.now }
{
    for b in line {
        if *b != b' ' {
            return *b == b'#';
        }
    }
    true
}
