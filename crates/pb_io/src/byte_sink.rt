ghost use Rattle.std.specs.Prelude.{◌≡◌, ◌≤◌, ◌<◌, ◌↔◌, [], Some, Ok, take, length, IfOk, OnErr, IsErr};
ghost use Rattle.std.specs.Io.KnownBytes.{Appends, Keeps};
ghost use Rattle.pb_pmem.specs.Count.{HasCause};
ghost use Rattle.pb_io.specs.SinkBytes.{AppendsSome};
ghost use Rattle.pb_io.specs.SinkState.{IsWriteFault, write_count, after_write};

use crate::counts::count_fault;
use crate::sink::{Sink, SinkFault};
use std::alloc::{AllocError, Global};
use std::marker::Model;

/// A sink in memory that has room for a number of bytes, takes them in pieces and fails at listed writes.
///
/// A contract sees it as a `SinkState`: the bytes written, the room, the piece, the listed writes, and the counts of writes and of faults.
#[derive(Drop)]
pub struct ByteSink {
    bytes: Vec<u8>,
    room: u32,
    piece: u32,
    fails: Vec<u64>,
    calls: u64,
    faults: u64,
}

impl Model for ByteSink {
    ghost use Rattle.std.specs.Prelude.{◌≤◌, vec_len, vec_capacity};
    ghost use Rattle.pb_io.specs.SinkState.{SinkState};

    ghost Value = { SinkState };

    ghost view = { λ sink. record {
      bytes = sink.bytes.items;
      room = sink.room;
      piece = sink.piece;
      fails = sink.fails.items;
      calls = sink.calls;
      faults = sink.faults;
    } };

    ghost invariant = { λ sink. (vec_len sink.bytes ≤ sink.room) × (sink.room ≤ vec_capacity sink.bytes) };
}

impl ByteSink {
    /// An empty sink with room for `room` bytes that takes at most `piece` of them a write.
    ///
    /// A write fails exactly where its number, counted from 1, is in `fails`, or where it has bytes and the sink is full or `piece` is 0.
    /// The count of writes stands still at its last value.
    pub fn new(alloc: Global, room: u32, piece: u32, fails: &[u64]) -> Result<ByteSink, AllocError>
        ensures { IfOk result (λ sink. sink ≡
            record { bytes = []; room = room; piece = piece; fails = fails.now; calls = 0; faults = 0 }) }
    {
        Ok(ByteSink {
            bytes: Vec::with_capacity(alloc, room as usize)?,
            room,
            piece,
            fails: Vec::from_slice(alloc, fails)?,
            calls: 0,
            faults: 0,
        })
    }

    /// The bytes written so far: no more than there is room for.
    pub fn bytes(&self) -> &[u8]
        ensures bytes { result.now ≡ self.now.bytes }
        ensures within { length result.now ≤ self.now.room }
    {
        &self.bytes
    }
}

impl Sink for ByteSink {
    ghost bytes = { λ sink. Some sink.bytes };

    ghost fault_count = { λ sink. sink.faults };

    /// Takes as many bytes as the piece, `from` and the room allow. After an error the bytes are as they were. It takes no memory.
    fn write(&mut self, from: &[u8]) -> Result<usize, SinkFault>
        ensures bound { IfOk result (λ count. count ≤ length from.now) }
        ensures some { IfOk result (λ count. 0 < length from.now → 0 < count) }
        ensures ok { IfOk result (λ count. Appends (Some self.old.bytes) (Some self.new.bytes) (take count from.now)) }
        ensures err { OnErr result (AppendsSome (Some self.old.bytes) (Some self.new.bytes) from.now) }
        ensures cause { HasCause self.old.faults self.new.faults result }

        ensures fails { IsErr result ↔ IsWriteFault self.old (length from.now) }
        ensures count { IfOk result (λ count. count ≡ write_count self.old (length from.now)) }
        ensures after { self.new ≡ after_write self.old from.now result }
    {
        self.calls = self.calls.saturating_add(1);
        if self.fails.contains(&self.calls) {
            count_fault(&mut self.faults);
            return Err(SinkFault);
        }
        let room = self.room as usize - self.bytes.len();
        let count = (self.piece as usize).min(from.len()).min(room);
        if count == 0 && !from.is_empty() {
            count_fault(&mut self.faults);
            return Err(SinkFault);
        }
        match self.bytes.extend_from_slice(&from[..count]) {
            Ok(()) => Ok(count),
            Err(_) => unreachable!(),
        }
    }

    /// Does nothing, and never fails.
    fn flush(&mut self) -> Result<(), SinkFault>
        ensures bytes { Keeps (Some self.old.bytes) (Some self.new.bytes) }
        ensures cause { HasCause self.old.faults self.new.faults result }
        ensures ok { result ≡ Ok tt }
        ensures same { self.new ≡ self.old }
    {
        Ok(())
    }

    fn faults(&self) -> u64
        ensures { result ≡ self.now.faults }
    {
        self.faults
    }
}
