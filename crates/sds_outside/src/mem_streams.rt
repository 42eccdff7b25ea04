// Sources and sinks in memory, which fail at the calls of a list.
ghost use Rattle.std.specs.Prelude.{◌≡◌, ◌≤◌, ◌+◌, ◌<◌, [], ◌++◌, length, drop, take, min, IfOk, vec_capacity, vec_len};

use crate::calls::Calls;
use crate::{Failed, Sink, Source};
use sds_base::{Bytes, List, NoMemory};
use std::alloc::Global;

/// A source of the bytes that it was made with.
#[derive(Drop)]
pub struct MemSource {
    bytes: Bytes,
    at: usize,
    calls: Calls,
    faults: u64,
    ghost within: { at ≤ length bytes },
}

impl MemSource {
    ghost use Rattle.sds_outside.specs.MemStreams.{source_left, source_faults, source_fails, source_calls};

    /// A source of these bytes, whose calls with the listed numbers fail. Calls are counted from 1.
    pub fn new(bytes: Bytes, fails: List<u64>) -> MemSource
        ensures left { source_left result ≡ Some bytes }
        ensures fails { source_fails result ≡ fails }
        ensures calls { source_calls result ≡ 0 }
        ensures faults { source_faults result ≡ 0 }
    {
        MemSource {
            bytes,
            at: 0,
            calls: Calls::new(fails),
            faults: 0,
        }
    }

    /// A source of these bytes that never fails.
    pub fn sound(alloc: Global, bytes: Bytes) -> MemSource
        ensures left { source_left result ≡ Some bytes }
        ensures fails { source_fails result ≡ [] }
        ensures calls { source_calls result ≡ 0 }
        ensures faults { source_faults result ≡ 0 }
    {
        MemSource::new(bytes, List::new(alloc))
    }
}

impl Source for MemSource {
    ghost use Rattle.std.specs.Prelude.{IfSome, OnOk, is_err};
    ghost use Rattle.sds_outside.specs.Causes.{HasCause, next_number};
    ghost use Rattle.sds_outside.specs.Told.{Reads};
    ghost use Rattle.sds_outside.specs.MemStreams.{source_left, source_faults, source_fails, source_calls, read_fails};

    ghost left = { source_left };

    ghost faults = { source_faults };

    fn read(&mut self, into: &mut [u8]) -> Result<usize, Failed>
        ensures bytes { Reads (source_left self.old) (source_left self.new) result into.new }
        ensures cause { HasCause (source_faults self.old) (source_faults self.new) result }
        ensures count { IfOk result (λ n. IfSome (source_left self.old) (λ rest. n ≡ min (length rest) (length into.new))) }
        ensures failed { is_err result ≡ read_fails self.old }
        ensures quiet { OnOk result (source_faults self.new ≡ source_faults self.old) }
        ensures calls { source_calls self.new ≡ next_number (source_calls self.old) }
        ensures fails { source_fails self.new ≡ source_fails self.old }
    {
        if self.calls.next_fails() {
            self.faults = self.faults.saturating_add(1);
            return Err(Failed);
        }
        let count = give(self.bytes.inner(), self.at, into);
        self.at += count;
        Ok(count)
    }
}

/// Copies as many bytes, from a place on, as there are and fit.
fn give(bytes: &[u8], at: usize, into: &mut [u8]) -> usize
    requires { at ≤ length bytes.now }
    ensures room { result ≤ length into.new }
    ensures bound { at + result ≤ length bytes.now }
    ensures took { drop at bytes.now ≡ take result into.new ++ drop (at + result) bytes.now }
    ensures end { result ≡ 0 → 0 < length into.new → drop (at + result) bytes.now ≡ [] }
    ensures count { result ≡ min (length (drop at bytes.now)) (length into.new) }
{
    let (_, rest) = bytes.split_at(at);
    let count = fill(rest, into);
    count
}

/// Copies as many bytes as there are and fit.
fn fill(rest: &[u8], into: &mut [u8]) -> usize
    ensures count { result ≡ min (length rest.now) (length into.new) }
    ensures bytes { take result into.new ≡ take result rest.now }
{
    let count = rest.len().min(into.len());
    into[..count].copy_from_slice(&rest[..count]);
    count
}

/// A sink that keeps what is written, up to its room.
#[derive(Drop)]
pub struct MemSink {
    bytes: Vec<u8>,
    room: usize,
    calls: Calls,
    faults: u64,
    ghost within: { vec_len bytes ≤ room },
    ghost reserved: { room ≤ vec_capacity bytes },
}

impl MemSink {
    ghost use Rattle.sds_outside.specs.MemStreams.{sink_taken, sink_room, sink_faults, sink_fails, sink_calls};

    /// An empty sink with room for so many bytes, which it takes now, whose calls with the listed numbers
    /// fail. Calls are counted from 1.
    pub fn new(alloc: Global, room: u64, fails: List<u64>) -> Result<MemSink, NoMemory>
        ensures taken { IfOk result (λ sink. sink_taken sink ≡ Some []) }
        ensures room { IfOk result (λ sink. sink_room sink ≡ room) }
        ensures fails { IfOk result (λ sink. sink_fails sink ≡ fails) }
        ensures calls { IfOk result (λ sink. sink_calls sink ≡ 0) }
        ensures faults { IfOk result (λ sink. sink_faults sink ≡ 0) }
    {
        let room = room as usize;
        Ok(MemSink {
            bytes: Vec::with_capacity(alloc, room)?,
            room,
            calls: Calls::new(fails),
            faults: 0,
        })
    }

    /// The bytes taken so far.
    pub fn taken(&self) -> &[u8]
        ensures { sink_taken self.now ≡ Some result.now }
    {
        &self.bytes
    }
}

impl Sink for MemSink {
    ghost use Rattle.std.specs.Prelude.{OnOk, is_err};
    ghost use Rattle.sds_outside.specs.Causes.{HasCause, next_number};
    ghost use Rattle.sds_outside.specs.Told.{Writes};
    ghost use Rattle.sds_outside.specs.MemStreams.{sink_taken, sink_room, sink_space, sink_faults, sink_fails, sink_calls, write_fails};

    ghost taken = { sink_taken };

    ghost faults = { sink_faults };

    fn write(&mut self, bytes: &[u8]) -> Result<usize, Failed>
        ensures bytes { Writes (sink_taken self.old) (sink_taken self.new) result bytes.now }
        ensures cause { HasCause (sink_faults self.old) (sink_faults self.new) result }
        ensures count { IfOk result (λ n. n ≡ min (length bytes.now) (sink_space self.old)) }
        ensures failed { is_err result ≡ write_fails self.old bytes.now }
        ensures quiet { OnOk result (sink_faults self.new ≡ sink_faults self.old) }
        ensures calls { sink_calls self.new ≡ next_number (sink_calls self.old) }
        ensures fails { sink_fails self.new ≡ sink_fails self.old }
        ensures room { sink_room self.new ≡ sink_room self.old }
    {
        let fails = self.calls.next_fails();
        let count = bytes.len().min(self.room - self.bytes.len());
        if fails || (count == 0 && !bytes.is_empty()) {
            self.faults = self.faults.saturating_add(1);
            return Err(Failed);
        }
        match self.bytes.extend_from_slice(&bytes[..count]) {
            Ok(()) => Ok(count),
            Err(_) => unreachable!(),
        }
    }
}
