//! A source and a sink in memory, of which calls with given numbers fail. Contracts know what they hold.
ghost use Rattle.std.specs.Prelude.{◌≡◌, ◌≤◌, [], Some, vec_len, IfOk};

use crate::{Failed, Sink, Source};
use std::alloc::{AllocError, Global};

/// Bytes to read, and the numbers of the reads, counted from 1, that fail and do nothing.
#[derive(Drop)]
pub struct MemSource {
    bytes: Vec<u8>,
    at: usize,
    fails: Vec<u64>,
    calls: u64,
    faults: u64,
    ghost within: { at ≤ vec_len bytes },
}

impl MemSource {
    ghost use Rattle.apex_base.specs.Memory.{source_left, source_faults};

    /// A source of these bytes. The reads with the numbers `fails`, counted from 1, fail.
    pub fn of(bytes: Vec<u8>, fails: Vec<u64>) -> Self
        ensures bytes { source_left result ≡ bytes.items }
        ensures faults { source_faults result ≡ 0 }
    {
        MemSource {
            bytes,
            at: 0,
            fails,
            calls: 0,
            faults: 0,
        }
    }
}

impl Source for MemSource {
    ghost use Rattle.apex_base.specs.Memory.{source_left, source_faults};

    ghost left = { λ source. Some (source_left source) };

    ghost faults = { λ source. source_faults source };

    fn read(&mut self, into: &mut [u8]) -> Result<usize, Failed> {
        self.calls = self.calls.saturating_add(1);
        if self.fails.contains(&self.calls) {
            self.faults = self.faults.saturating_add(1);
            return Err(Failed);
        }
        let rest = &self.bytes[self.at..];
        let n = rest.len().min(into.len());
        into[..n].copy_from_slice(&rest[..n]);
        self.at += n;
        Ok(n)
    }
}

/// Holds what was put. Room for a number of bytes is made at the start. A put does nothing, and fails, if its number,
/// counted from 1, is among those that fail, or if it goes beyond the room and finds no memory.
#[derive(Drop)]
pub struct MemSink {
    bytes: Vec<u8>,
    fails: Vec<u64>,
    calls: u64,
    faults: u64,
}

impl MemSink {
    ghost use Rattle.apex_base.specs.Memory.{sink_held, sink_faults};

    /// An empty sink with room for `room` bytes. Fails only if memory runs out.
    pub fn with_room(alloc: Global, room: usize, fails: Vec<u64>) -> Result<Self, AllocError>
        ensures empty { IfOk result (λ sink. sink_held sink ≡ []) }
        ensures faults { IfOk result (λ sink. sink_faults sink ≡ 0) }
    {
        Ok(MemSink {
            bytes: Vec::with_capacity(alloc, room)?,
            fails,
            calls: 0,
            faults: 0,
        })
    }

    /// What was put so far.
    pub fn bytes(&self) -> &[u8]
        ensures { result.now ≡ sink_held self.now }
    {
        &self.bytes
    }
}

impl Sink for MemSink {
    ghost use Rattle.apex_base.specs.Memory.{sink_held, sink_faults};

    ghost held = { λ sink. Some (sink_held sink) };

    ghost faults = { λ sink. sink_faults sink };

    fn put(&mut self, piece: &[u8]) -> Result<(), Failed> {
        self.calls = self.calls.saturating_add(1);
        if self.fails.contains(&self.calls) || self.bytes.extend_from_slice(piece).is_err() {
            self.faults = self.faults.saturating_add(1);
            return Err(Failed);
        }
        Ok(())
    }
}
