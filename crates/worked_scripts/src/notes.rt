//! Reads a file of worked scripts: `README.md` says how one is written.
use std::alloc::{AllocError, Global};

/// A script, and what has to come of it.
#[derive(Drop)]
pub struct Worked {
    /// The line of the file that has the last line of the script.
    pub line: usize,
    pub script: Vec<u8>,
    pub wanted: Vec<u8>,
}

/// What the lines so far make.
#[derive(Drop)]
struct Notes {
    /// What the scripts begin with, and their texts.
    start: Vec<u8>,
    start_text: Vec<u8>,
    /// The script that is being read, without its start.
    line: usize,
    script: Vec<u8>,
    wanted: Vec<u8>,
    done: Vec<Worked>,
}

fn push_line(text: &mut Vec<u8>, line: &[u8]) -> Result<(), AllocError> {
    text.extend_from_slice(line)?;
    text.extend_from_slice(b"\n")
}

fn joined(alloc: Global, start: &[u8], rest: &[u8]) -> Result<Vec<u8>, AllocError> {
    let mut whole = start.to_vec(alloc)?;
    whole.extend_from_slice(rest)?;
    Ok(whole)
}

/// The number in front of a line, and the line.
fn numbered(text: &[u8]) -> Option<(usize, &[u8])> {
    let (number, line) = str::from_utf8(text).ok()?.split_once(' ')?;
    Some((number.parse().ok()?, line.as_bytes()))
}

/// A line with so many more of its last byte, as the number in front of it says; nothing where there is none.
fn long_line(alloc: Global, text: &[u8]) -> Result<Vec<u8>, AllocError> {
    let mut long = Vec::new(alloc);
    if let Some((more, line)) = numbered(text) {
        long.extend_from_slice(line)?;
        if let Some(last) = line.last() {
            long.extend_from_slice(&vec![in alloc; *last; more]?)?;
        }
    }
    Ok(long)
}

impl Notes {
    fn new(alloc: Global) -> Self {
        Notes {
            start: Vec::new(alloc),
            start_text: Vec::new(alloc),
            line: 0,
            script: Vec::new(alloc),
            wanted: Vec::new(alloc),
            done: Vec::new(alloc),
        }
    }

    /// Ends the script that is being read, where something is said of it.
    fn end_script(&mut self, alloc: Global) -> Result<(), AllocError> {
        if self.wanted.is_empty() {
            return Ok(());
        }
        self.done.push(Worked {
            line: self.line,
            script: joined(alloc, &self.start, &self.script)?,
            wanted: joined(alloc, &self.start_text, &self.wanted)?,
        })?;
        self.script.clear();
        self.wanted.clear();
        Ok(())
    }

    /// A line that the scripts below begin with: the first one after a script begins anew.
    fn start_line(&mut self, alloc: Global, line: &[u8]) -> Result<(), AllocError> {
        if !self.wanted.is_empty() {
            self.end_script(alloc)?;
            self.start.clear();
            self.start_text.clear();
        }
        push_line(&mut self.start, line)
    }

    /// A line of a script, which is another one where something is said of the last one.
    fn script_line(&mut self, alloc: Global, at: usize, line: &[u8]) -> Result<(), AllocError> {
        self.end_script(alloc)?;
        self.line = at;
        push_line(&mut self.script, line)
    }

    /// The last line of a script, without a line feed.
    fn last_line(&mut self, alloc: Global, at: usize, line: &[u8]) -> Result<(), AllocError> {
        self.end_script(alloc)?;
        self.line = at;
        self.script.extend_from_slice(line)
    }

    fn take(&mut self, alloc: Global, at: usize, line: &[u8]) -> Result<(), AllocError> {
        match line {
            [b'|', b' ', rest @ ..] => self.start_line(alloc, rest),
            [b'>', b' ', rest @ ..] => push_line(&mut self.start_text, rest),
            [b'+', b' ', rest @ ..] => self.script_line(alloc, at, rest),
            [b'+'] => self.script_line(alloc, at, b""),
            [b'&', b' ', rest @ ..] => self.start_line(alloc, &long_line(alloc, rest)?),
            [b'*', b' ', rest @ ..] => self.script_line(alloc, at, &long_line(alloc, rest)?),
            [b'-', b' ', rest @ ..] => self.last_line(alloc, at, rest),
            [b'=', b' ', rest @ ..] => push_line(&mut self.wanted, rest),
            _ => Ok(()),
        }
    }
}

/// The worked scripts of a file.
pub fn read_notes(alloc: Global, file: &[u8]) -> Result<Vec<Worked>, AllocError> {
    let mut notes = Notes::new(alloc);
    for (at, line) in file.split(|b| *b == b'\n').enumerate() {
        notes.take(alloc, at + 1, line)?;
    }
    notes.end_script(alloc)?;
    Ok(notes.done)
}
