ghost use Rattle.std.specs.Prelude.{◌≡◌, ℕ, ◌<◌, ◌≤◌, List, [], Some, length, min, take, drop, vec_len, vec_capacity};
ghost use Rattle.std.specs.Prelude.{is_err, IfOk, OnErr, Ok};
ghost use Rattle.std.specs.Io.{ReadsAtMost, WritesAtMost};
ghost use Rattle.std.specs.Io.KnownBytes.{ReadConsumes, WriteAppends};
ghost use Rattle.flux_base.specs.Outside.{Rose, IsCounted};
ghost use Rattle.flux_base.specs.Memory.{SourceState, SinkState, read_of, source_after, write_of, sink_after};

use crate::outside::{Failed, Memory, Sink, Source};
use std::alloc::Global;
use std::marker::Model;

/// Copies as many bytes as fit to the buffer's front, and says how many.
pub fn copy_front(bytes: &[u8], buffer: &mut [u8]) -> usize
    ensures count { result ≡ min (length buffer.old) (length bytes.now) }
    ensures front { take result buffer.new ≡ take result bytes.now }
    ensures len { length buffer.new ≡ length buffer.old }
{
    let count = buffer.len().min(bytes.len());
    buffer[..count].copy_from_slice(&bytes[..count]);
    count
}

/// A source whose bytes lie in memory. A read gives the least of the chunk, the buffer's length and the
/// bytes left. The calls whose numbers, from 0, are on a list answer `Failed` and are counted as faults.
#[derive(Debug, Drop)]
pub struct MemorySource {
    bytes: Vec<u8>,
    start: usize,
    chunk: u32,
    failing: Vec<u64>,
    calls: u64,
    faults: u64,
}

impl Model for MemorySource {
    ghost Value = { SourceState };

    ghost view = { λ s.
        record {
          left = drop s.start s.bytes.items;
          chunk = s.chunk;
          failing = s.failing.items;
          calls = s.calls;
          faults = s.faults;
        } };

    ghost invariant = { λ s. (s.start ≤ vec_len s.bytes) × (0 < s.chunk) };
}

impl MemorySource {
    pub fn new(bytes: Vec<u8>, chunk: u32, failing: Vec<u64>) -> MemorySource
        requires { 0 < chunk }
        ensures { result
            ≡ record { left = bytes.items; chunk = chunk; failing = failing.items; calls = 0; faults = 0 } }
    {
        MemorySource {
            bytes,
            start: 0,
            chunk,
            failing,
            calls: 0,
            faults: 0,
        }
    }

    /// The bytes still to come.
    pub fn rest(&self) -> &[u8]
        ensures { result.now ≡ self.now.left }
    {
        &self.bytes[self.start..]
    }

    /// The number of reads so far, which stays at `u64::MAX`.
    pub fn calls(&self) -> u64
        ensures { result ≡ self.now.calls }
    {
        self.calls
    }
}

impl Source for MemorySource {
    ghost left = { λ s. Some s.left };

    ghost faults = { λ s. s.faults };

    ghost failed = { λ s. Some s.faults };

    fn read(&mut self, buffer: &mut [u8]) -> Result<usize, Failed>
        ensures bound { ReadsAtMost result buffer.new }
        ensures bytes { ReadConsumes (Some self.old.left) (Some self.new.left) result buffer.new }
        ensures later { self.old.faults ≤ self.new.faults }
        ensures cause { OnErr result (Rose self.old.faults self.new.faults) }
        ensures counted { IsCounted (is_err result) (Some self.old.faults) (Some self.new.faults) }
        ensures answer { result ≡ read_of self.old (length buffer.old) }
        ensures after { self.new ≡ source_after self.old (length buffer.old) }
    {
        let failing = self.failing.contains(&self.calls);
        self.calls = self.calls.saturating_add(1);
        if failing {
            self.faults = self.faults.saturating_add(1);
            return Err(Failed);
        }
        let most = (self.chunk as usize).min(self.bytes.len() - self.start);
        let given = copy_front(&self.bytes[self.start..self.start + most], buffer);
        self.start += given;
        Ok(given)
    }
}

/// A source whose bytes lie in memory and that never fails. A read gives the lesser of the buffer's
/// length and the bytes left.
#[derive(Debug, Drop)]
pub struct PlainSource {
    bytes: Vec<u8>,
    start: usize,
}

impl Model for PlainSource {
    ghost Value = { List ℕ };

    ghost view = { λ s. drop s.start s.bytes.items };

    ghost invariant = { λ s. s.start ≤ vec_len s.bytes };
}

impl PlainSource {
    pub fn new(bytes: Vec<u8>) -> PlainSource
        ensures { result ≡ bytes.items }
    {
        PlainSource { bytes, start: 0 }
    }
}

impl Source for PlainSource {
    ghost left = { λ s. Some s };

    ghost faults = { λ _. 0 };

    ghost failed = { λ _. Some 0 };

    fn read(&mut self, buffer: &mut [u8]) -> Result<usize, Failed>
        ensures bound { ReadsAtMost result buffer.new }
        ensures bytes { ReadConsumes (Some self.old) (Some self.new) result buffer.new }
        ensures answer { result ≡ Ok (min (length buffer.old) (length self.old)) }
    {
        let given = copy_front(&self.bytes[self.start..], buffer);
        self.start += given;
        Ok(given)
    }
}

/// A sink that keeps its bytes in memory, in a room that is taken at the start. A write takes the whole
/// piece where it fits, else as much as fits. The calls whose numbers, from 0, are on a list, and those
/// with a piece that is not empty for which no room is left, answer `Failed` and are counted as faults.
#[derive(Debug, Drop)]
pub struct MemorySink {
    bytes: Vec<u8>,
    room: usize,
    failing: Vec<u64>,
    calls: u64,
    faults: u64,
}

impl Model for MemorySink {
    ghost Value = { SinkState };

    ghost view = { λ s.
        record {
          written = s.bytes.items;
          room = s.room;
          failing = s.failing.items;
          calls = s.calls;
          faults = s.faults;
        } };

    ghost invariant = { λ s. (vec_len s.bytes ≤ s.room) × (s.room ≤ vec_capacity s.bytes) };
}

impl MemorySink {
    pub fn new(alloc: Global, room: usize, failing: Vec<u64>) -> Result<MemorySink, Memory>
        ensures { IfOk result
            (λ sink. sink ≡ record { written = []; room = room; failing = failing.items; calls = 0; faults = 0 }) }
    {
        Ok(MemorySink {
            bytes: Vec::with_capacity(alloc, room)?,
            room,
            failing,
            calls: 0,
            faults: 0,
        })
    }

    /// The bytes taken so far.
    pub fn bytes(&self) -> &[u8]
        ensures { result.now ≡ self.now.written }
    {
        &self.bytes
    }

    /// The number of writes so far, which stays at `u64::MAX`.
    pub fn calls(&self) -> u64
        ensures { result ≡ self.now.calls }
    {
        self.calls
    }
}

impl Sink for MemorySink {
    ghost written = { λ s. Some s.written };

    ghost faults = { λ s. s.faults };

    ghost failed = { λ s. Some s.faults };

    fn write(&mut self, piece: &[u8]) -> Result<usize, Failed>
        ensures bound { WritesAtMost result piece.now }
        ensures progress { IfOk result (λ n. 0 < length piece.now → 0 < n) }
        ensures bytes { WriteAppends (Some self.old.written) (Some self.new.written) result piece.now }
        ensures later { self.old.faults ≤ self.new.faults }
        ensures cause { OnErr result (Rose self.old.faults self.new.faults) }
        ensures counted { IsCounted (is_err result) (Some self.old.faults) (Some self.new.faults) }
        ensures answer { result ≡ write_of self.old piece.now }
        ensures after { self.new ≡ sink_after self.old piece.now }
    {
        let failing = self.failing.contains(&self.calls);
        self.calls = self.calls.saturating_add(1);
        let left = self.room - self.bytes.len();
        if failing || (!piece.is_empty() && left == 0) {
            self.faults = self.faults.saturating_add(1);
            return Err(Failed);
        }
        let taken = piece.len().min(left);
        match self.bytes.extend_from_slice(&piece[..taken]) {
            Ok(()) => Ok(taken),
            Err(_) => unreachable!(),
        }
    }
}

/// A sink that takes every piece whole, keeps none of it and never fails.
#[derive(Debug, Drop)]
pub struct CountingSink;

impl CountingSink {
    pub fn new() -> CountingSink
        ensures { result ≡ record {} }
    {
        CountingSink
    }
}

impl Sink for CountingSink {
    ghost faults = { λ _. 0 };

    ghost failed = { λ _. Some 0 };

    fn write(&mut self, piece: &[u8]) -> Result<usize, Failed>
        ensures whole { result ≡ Ok (length piece.now) }
    {
        Ok(piece.len())
    }
}
