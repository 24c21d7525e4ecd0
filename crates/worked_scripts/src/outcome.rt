//! What comes of a script: its text, and the reason where it isn't played to its end.
use apex_base::{MemSink, MemSource, OpenGate};
use device_play::{Status, apex_play};
use std::alloc::{AllocError, Global};

fn play_word(alloc: Global) -> Result<Vec<String>, AllocError> {
    let mut words = Vec::new(alloc);
    words.push(String::from_str(alloc, "play")?)?;
    Ok(words)
}

fn reason(alloc: Global, status: &Status) -> Result<String, AllocError> {
    match status {
        Status::Done => Ok(String::new(alloc)),
        Status::Script { line, why } => format!(in alloc; "script line {line} {why}\n"),
        _ => format!(in alloc; "status {}\n", status.number()),
    }
}

/// The text of a script, or why it is none.
pub fn outcome(alloc: Global, script: &[u8]) -> Result<Vec<u8>, AllocError> {
    let words = play_word(alloc)?;
    let mut source = MemSource::of(script.to_vec(alloc)?, Vec::new(alloc));
    let mut sink = MemSink::with_room(alloc, 4096, Vec::new(alloc))?;
    let played = apex_play(alloc, &words, &mut source, &mut sink, &OpenGate);
    let mut text = sink.bytes().to_vec(alloc)?;
    text.extend_from_slice(reason(alloc, &played.status)?.as_bytes())?;
    Ok(text)
}
