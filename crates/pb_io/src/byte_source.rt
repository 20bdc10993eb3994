ghost use Rattle.std.specs.Prelude.{◌≡◌, ◌≤◌, ◌↔◌, [], Some, length, min, take, IfOk, IsErr};
ghost use Rattle.std.specs.Io.KnownBytes.{ReadConsumes};
ghost use Rattle.pb_pmem.specs.Count.{HasCause};
ghost use Rattle.pb_io.specs.SourceState.{IsReadFault, read_count, after_read};

use crate::counts::count_fault;
use crate::source::{Source, SourceFault};
use std::alloc::{AllocError, Global};
use std::marker::Model;

/// A source in memory that gives its bytes in pieces and fails at listed calls.
///
/// A contract sees it as a `SourceState`: the bytes that are left, the piece, the listed calls, and the counts of calls and of faults.
#[derive(Drop)]
pub struct ByteSource {
    bytes: Vec<u8>,
    at: usize,
    piece: u32,
    fails: Vec<u64>,
    calls: u64,
    faults: u64,
}

impl Model for ByteSource {
    ghost use Rattle.std.specs.Prelude.{◌≤◌, drop, vec_len};
    ghost use Rattle.pb_io.specs.SourceState.{SourceState};

    ghost Value = { SourceState };

    ghost view = { λ source. record {
      rest = drop source.at source.bytes.items;
      piece = source.piece;
      fails = source.fails.items;
      calls = source.calls;
      faults = source.faults;
    } };

    ghost invariant = { λ source. (source.at ≤ vec_len source.bytes) × (1 ≤ source.piece) };
}

impl ByteSource {
    /// A source of `bytes` that gives at most `piece` of them a read, and fails exactly at the calls of the numbers in `fails`.
    ///
    /// Calls are counted from 1, and their count stands still at its last value.
    pub fn new(
        alloc: Global,
        bytes: &[u8],
        piece: u32,
        fails: &[u64],
    ) -> Result<ByteSource, AllocError>
        requires { 1 ≤ piece }
        ensures { IfOk result (λ source. source ≡
            record { rest = bytes.now; piece = piece; fails = fails.now; calls = 0; faults = 0 }) }
    {
        Ok(ByteSource {
            bytes: Vec::from_slice(alloc, bytes)?,
            at: 0,
            piece,
            fails: Vec::from_slice(alloc, fails)?,
            calls: 0,
            faults: 0,
        })
    }
}

impl Source for ByteSource {
    ghost rest = { λ source. Some source.rest };

    ghost fault_count = { λ source. source.faults };

    /// Gives as many bytes as the piece, `into` and the rest allow. It takes no memory.
    fn read(&mut self, into: &mut [u8]) -> Result<usize, SourceFault>
        ensures bound { IfOk result (λ count. count ≤ length into.new) }
        ensures bytes { ReadConsumes (Some self.old.rest) (Some self.new.rest) result into.new }
        ensures cause { HasCause self.old.faults self.new.faults result }

        ensures fails { IsErr result ↔ IsReadFault self.old }
        ensures count { IfOk result (λ count. count ≡ read_count self.old (length into.new)) }
        ensures after { self.new ≡ after_read self.old result }
    {
        self.calls = self.calls.saturating_add(1);
        if self.fails.contains(&self.calls) {
            count_fault(&mut self.faults);
            return Err(SourceFault);
        }
        let count = copy_piece(&self.bytes[self.at..], self.piece as usize, into);
        self.at += count;
        Ok(count)
    }

    fn faults(&self) -> u64
        ensures { result ≡ self.now.faults }
    {
        self.faults
    }
}

/// Copies as many of the first bytes of `from` as the piece and `into` allow, and says how many.
fn copy_piece(from: &[u8], piece: usize, into: &mut [u8]) -> usize
    ensures count { result ≡ min (min piece (length into.new)) (length from.now) }
    ensures prefix { take result into.new ≡ take result from.now }
{
    let count = piece.min(into.len()).min(from.len());
    into[..count].copy_from_slice(&from[..count]);
    count
}
