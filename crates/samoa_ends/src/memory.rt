//! Ends in memory, for tests and for callers that hold the bytes, and a sink that keeps nothing.
ghost use Rattle.std.specs.Prelude.{◌≡◌, ◌⊎◌, ◌↔◌, ◌≤◌, ◌<◌, ◌+◌, [], length, vec_len, vec_capacity, Contains, IsErr, IfOk, OnOk, OnErr, IsTrue, None, Ok, Some, min, take};
ghost use Rattle.std.specs.Io.{ReadsAtMost};
ghost use Rattle.std.specs.Io.KnownBytes.{ReadConsumes, WriteAppends};
ghost use Rattle.samoa_ends.specs.Causes.{HasCause};
ghost use Rattle.samoa_ends.specs.Pieces.{TakesSome};

use crate::{Failed, Sink, Source};
use samoa_model::NoMemory;
use std::alloc::Global;

/// A source of bytes in memory. Its calls are numbered from 1.
#[derive(Drop)]
pub struct MemSource {
    bytes: Vec<u8>,
    at: usize,
    calls: u64,
    failing: Vec<u64>,
    faults: u64,
    ghost in_range: { at ≤ vec_len bytes },
}

impl MemSource {
    ghost use Rattle.samoa_ends.specs.Memory.{bytes_left, failing_reads, reads_made, read_faults};

    /// A source of these bytes, of which exactly those reads fail whose numbers stand in `failing`. It takes no memory.
    pub fn new(bytes: Vec<u8>, failing: Vec<u64>) -> MemSource
        ensures left { bytes_left result ≡ bytes.items }
        ensures failing { failing_reads result ≡ failing.items }
        ensures calls { reads_made result ≡ 0 }
        ensures faults { read_faults result ≡ 0 }
    {
        MemSource {
            bytes,
            at: 0,
            calls: 0,
            failing,
            faults: 0,
        }
    }
}

impl Source for MemSource {
    ghost use Rattle.samoa_ends.specs.Memory.{bytes_left, failing_reads, reads_made, read_faults, next_call};

    ghost left = { λ s. Some (bytes_left s) };

    ghost faults = { λ s. read_faults s };

    fn read(&mut self, buf: &mut [u8]) -> Result<usize, Failed>
        requires { 0 < length buf.old }
        ensures bound { ReadsAtMost result buf.new }
        ensures bytes { ReadConsumes (Some (bytes_left self.old)) (Some (bytes_left self.new)) result buf.new }
        ensures cause { HasCause (read_faults self.old) (read_faults self.new) result }

        // As much as there is room for, and a failure exactly where it was asked for.
        ensures count { IfOk result (λ n. n ≡ min (length (bytes_left self.old)) (length buf.old)) }
        ensures exactly { IsErr result ↔ Contains (failing_reads self.old) (next_call (reads_made self.old)) }
        ensures calls { reads_made self.new ≡ next_call (reads_made self.old) }
        ensures no_fault { OnOk result (read_faults self.new ≡ read_faults self.old) }
        ensures failing { failing_reads self.new ≡ failing_reads self.old }
    {
        self.calls = self.calls.saturating_add(1);
        if is_among(self.calls, &self.failing) {
            self.faults = self.faults.saturating_add(1);
            return Err(Failed);
        }
        let count = copy_front(&self.bytes[self.at..], buf);
        self.at += count;
        Ok(count)
    }
}

/// A sink in memory, which takes whole pieces. Its calls are numbered from 1.
#[derive(Drop)]
pub struct MemSink {
    bytes: Vec<u8>,
    room: usize,
    calls: u64,
    failing: Vec<u64>,
    faults: u64,
    ghost has_room: { vec_len bytes + room ≤ vec_capacity bytes },
}

impl MemSink {
    ghost use Rattle.samoa_ends.specs.Memory.{bytes_written, failing_writes, writes_made, write_faults, room_left};

    /// A sink with room for `room` bytes in all, or want of memory. Exactly those writes fail whose numbers stand in
    /// `failing`, and those of a piece that is longer than the room left. A write takes no memory.
    pub fn new(alloc: Global, room: usize, failing: Vec<u64>) -> Result<MemSink, NoMemory>
        ensures written { IfOk result (λ s. bytes_written s ≡ []) }
        ensures room { IfOk result (λ s. room_left s ≡ room) }
        ensures failing { IfOk result (λ s. failing_writes s ≡ failing.items) }
        ensures calls { IfOk result (λ s. writes_made s ≡ 0) }
        ensures faults { IfOk result (λ s. write_faults s ≡ 0) }
    {
        let bytes = Vec::with_capacity(alloc, room)?;
        Ok(MemSink {
            bytes,
            room,
            calls: 0,
            failing,
            faults: 0,
        })
    }

    /// The bytes taken so far.
    pub fn bytes(&self) -> &[u8]
        ensures { result.now ≡ bytes_written self.now }
    {
        &self.bytes
    }
}

impl Sink for MemSink {
    ghost use Rattle.samoa_ends.specs.Memory.{bytes_written, failing_writes, writes_made, write_faults, room_left, next_call};

    ghost written = { λ s. Some (bytes_written s) };

    ghost faults = { λ s. write_faults s };

    fn write(&mut self, piece: &[u8]) -> Result<usize, Failed>
        requires { 0 < length piece.now }
        ensures bound { TakesSome result piece.now }
        ensures bytes { WriteAppends (Some (bytes_written self.old)) (Some (bytes_written self.new)) result piece.now }
        ensures cause { HasCause (write_faults self.old) (write_faults self.new) result }

        // The whole piece, and a failure exactly where it was asked for or the room is too small.
        ensures whole { IfOk result (λ n. n ≡ length piece.now) }
        ensures exactly { IsErr result ↔ (Contains (failing_writes self.old) (next_call (writes_made self.old))
            ⊎ (room_left self.old < length piece.now)) }
        ensures room { OnOk result (room_left self.new + length piece.now ≡ room_left self.old) }
        ensures same_room { OnErr result (room_left self.new ≡ room_left self.old) }
        ensures calls { writes_made self.new ≡ next_call (writes_made self.old) }
        ensures no_fault { OnOk result (write_faults self.new ≡ write_faults self.old) }
        ensures failing { failing_writes self.new ≡ failing_writes self.old }
    {
        self.calls = self.calls.saturating_add(1);
        if is_among(self.calls, &self.failing) {
            self.faults = self.faults.saturating_add(1);
            return Err(Failed);
        }
        if piece.len() > self.room {
            self.faults = self.faults.saturating_add(1);
            return Err(Failed);
        }
        self.bytes.extend_from_slice(piece).unwrap();
        self.room -= piece.len();
        Ok(piece.len())
    }
}

/// A sink that keeps nothing of what it is given, and never fails. It tells no bytes.
#[derive(Clone, Copy, Debug, PartialEq, Eq)]
pub struct NoSink;

impl Sink for NoSink {
    ghost written = { λ _. None };

    ghost faults = { λ _. 0 };

    fn write(&mut self, piece: &[u8]) -> Result<usize, Failed>
        requires { 0 < length piece.now }
        ensures bound { TakesSome result piece.now }
        ensures bytes { WriteAppends None None result piece.now }
        ensures cause { HasCause 0 0 result }
        ensures whole { result ≡ Ok (length piece.now) }
    {
        Ok(piece.len())
    }
}

fn is_among(call: u64, failing: &[u64]) -> bool
    ensures { IsTrue result ↔ Contains failing.now call }
{
    failing.contains(&call)
}

/// Copies as many of the first bytes as there is room for, and answers how many these are.
fn copy_front(from: &[u8], buf: &mut [u8]) -> usize
    ensures count { result ≡ min (length from.now) (length buf.old) }
    ensures front { take result buf.new ≡ take result from.now }
{
    let count = buf.len().min(from.len());
    buf[..count].copy_from_slice(&from[..count]);
    count
}
