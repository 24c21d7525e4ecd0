//! A reader as a source, and a writer as a sink. What they tell of bytes is what the reader and the writer tell.
ghost use Rattle.std.specs.Prelude.{◌≡◌, ◌≤◌, ◌<◌, ◌+◌, min, ◌-◌, [], IfOk, IsOk, OnOk, OnErr, length, take, drop, vec_len, vec_capacity};
ghost use Rattle.std.specs.Io.KnownBytes.{Appends, Keeps};
ghost use Rattle.apex_base.specs.Causes.{Rose, HasCause};
ghost use Rattle.apex_base.specs.Outside.{Took, Puts};
ghost use Rattle.apexplay.specs.Streams.{left_of, held_of};

use apex_base::{Failed, Sink, Source};
use std::alloc::{AllocError, Global};
use std::io::{ErrorKind, Read, Write};

/// A count of faults with one more, or at its end.
fn one_more(faults: u64) -> u64
    ensures rose { Rose faults result }
    ensures later { faults ≤ result }
{
    faults.saturating_add(1)
}

/// A reader as a source.
#[derive(Drop)]
pub struct Reading<R: Read> {
    reader: R,
    faults: u64,
}

impl<R: Read + Drop> Reading<R> {
    /// Nothing has been read yet.
    pub fn new(reader: R) -> Self
        ensures reader { result.reader ≡ reader }
        ensures faults { result.faults ≡ 0 }
    {
        Reading { reader, faults: 0 }
    }

    /// The reader, as far as it was read.
    pub fn into_reader(self) -> R
        ensures { result ≡ self.reader }
    {
        self.reader
    }
}

impl<R: Read> Source for Reading<R> {
    ghost left = { left_of R.remaining };

    ghost faults = { λ source. source.faults };

    fn read(&mut self, into: &mut [u8]) -> Result<usize, Failed>
        ensures within { IfOk result (λ n. n ≤ length into.new) }
        ensures taken { Took (left_of R.remaining self.old) (left_of R.remaining self.new) result into.new }
        ensures cause { HasCause self.old.faults self.new.faults result }

        // A read that answers bytes or the end counts no fault, and one that failed took nothing.
        ensures counted { OnOk result (self.new.faults ≡ self.old.faults) }
        ensures kept { OnErr result (Keeps (left_of R.remaining self.old) (left_of R.remaining self.new)) }
    {
        match self.reader.read(into) {
            Ok(n) => Ok(n),
            Err(_) => {
                self.faults = one_more(self.faults);
                Err(Failed)
            }
        }
    }
}

/// Writes until all is written or a write fails, and tells how many bytes were written. Interrupted writes are tried
/// again.
fn write_front<W: Write>(bytes: &[u8], to: &mut W) -> usize
    ensures bound { result ≤ length bytes.now }
    ensures written { Appends (W.contents to.old) (W.contents to.new) (take result bytes.now) }
{
    let mut written = 0;
    for _ in 0..u64::MAX {
        if written == bytes.len() {
            break;
        }
        match to.write(&bytes[written..]) {
            Ok(0) => break,
            Ok(n) => written += n,
            Err(e) => {
                if e.kind() != ErrorKind::Interrupted {
                    break;
                }
            }
        }
    }
    written
}

fn remove_front(bytes: &mut Vec<u8>, n: usize)
    requires { n ≤ vec_len bytes.old }
    ensures items { bytes.new.items ≡ drop n bytes.old.items }
    ensures len { vec_len bytes.new ≡ vec_len bytes.old - n }
    ensures capacity { vec_capacity bytes.new ≡ vec_capacity bytes.old }
{
    let len = bytes.len();
    bytes.as_mut_slice().copy_within(n..len, 0);
    bytes.truncate(len - n);
}

/// How many bytes are gathered before they are written.
const ROOM: usize = 65536;

/// A writer as a sink. Pieces are gathered, so that a line doesn't cost a system call. What was written and what is
/// gathered, one after the other, is what was put. After a failed write nothing more is written.
#[derive(Drop)]
pub struct Writing<W: Write> {
    writer: W,
    gathered: Vec<u8>,
    faults: u64,
}

impl<W: Write + Drop> Writing<W> {
    /// Nothing has been put yet, and there is no room to gather.
    pub fn new(alloc: Global, writer: W) -> Self
        ensures writer { result.writer ≡ writer }
        ensures empty { result.gathered.items ≡ [] }
        ensures faults { result.faults ≡ 0 }
    {
        Writing {
            writer,
            gathered: Vec::new(alloc),
            faults: 0,
        }
    }

    /// Takes the room in which pieces are gathered, so that a put needs no memory.
    pub fn take_room(&mut self) -> Result<(), AllocError>
        ensures room { OnOk result (vec_len self.new.gathered + 65536 ≤ vec_capacity self.new.gathered) }
        ensures gathered { self.new.gathered.items ≡ self.old.gathered.items }
        ensures writer { self.new.writer ≡ self.old.writer }
        ensures faults { self.new.faults ≡ self.old.faults }
    {
        self.gathered.reserve_exact(ROOM)
    }

    /// The writer. What is still gathered is let go.
    pub fn into_writer(self) -> W
        ensures { result ≡ self.writer }
    {
        self.writer
    }

    fn fail(&mut self) -> Failed
        ensures rose { Rose self.old.faults self.new.faults }
        ensures later { self.old.faults ≤ self.new.faults }
        ensures writer { self.new.writer ≡ self.old.writer }
        ensures gathered { self.new.gathered ≡ self.old.gathered }
    {
        self.faults = one_more(self.faults);
        Failed
    }

    /// Writes what is still gathered. A write that fails leaves the rest gathered.
    pub fn finish(&mut self) -> Result<(), Failed>
        ensures kept { Keeps (held_of W.contents self.old) (held_of W.contents self.new) }
        ensures emptied { OnOk result (self.new.gathered.items ≡ []) }
        ensures cause { HasCause self.old.faults self.new.faults result }
        ensures stopped { 0 < self.old.faults → self.new.writer ≡ self.old.writer }
        ensures idle { self.old.faults ≡ 0 → self.old.gathered.items ≡ [] → IsOk result }
    {
        if self.faults > 0 {
            return Err(self.fail());
        }
        let written = write_front(&self.gathered, &mut self.writer);
        remove_front(&mut self.gathered, written);
        if !self.gathered.is_empty() {
            return Err(self.fail());
        }
        Ok(())
    }
}

impl<W: Write + Drop> Sink for Writing<W> {
    ghost held = { held_of W.contents };

    ghost faults = { λ sink. sink.faults };

    fn put(&mut self, piece: &[u8]) -> Result<(), Failed>
        ensures put { Puts (held_of W.contents self.old) (held_of W.contents self.new) result piece.now }
        ensures cause { HasCause self.old.faults self.new.faults result }
        ensures stopped { 0 < self.old.faults → self.new.writer ≡ self.old.writer }

        // A piece for which there is room is gathered alone.
        ensures room { self.old.faults ≡ 0 → vec_len self.old.gathered + length piece.now ≤ min 65536 (vec_capacity self.old.gathered)
            → IsOk result × (self.new.writer ≡ self.old.writer) }
    {
        if self.faults > 0 {
            return Err(self.fail());
        }
        if self.gathered.len().saturating_add(piece.len()) > ROOM {
            self.finish()?;
        }
        if self.gathered.extend_from_slice(piece).is_err() {
            return Err(self.fail());
        }
        Ok(())
    }
}
