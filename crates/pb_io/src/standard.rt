ghost use Rattle.std.specs.Prelude.{◌≡◌, ◌≤◌, ◌<◌, take, length, IfOk, OnErr};
ghost use Rattle.std.specs.Io.KnownBytes.{Appends, Keeps, ReadConsumes};
ghost use Rattle.pb_pmem.specs.Count.{HasCause};
ghost use Rattle.pb_io.specs.Counts.{counted};
ghost use Rattle.pb_io.specs.SinkBytes.{AppendsSome};
ghost use Rattle.pb_io.specs.Standard.{source_reader, source_faults, sink_writer, sink_faults};

use crate::counts::count_fault;
use crate::sink::{Sink, SinkFault};
use crate::source::{Source, SourceFault};
use std::io::{Read, Write};

/// A source over a standard reader, with a count of the reads that failed. It tells what the reader tells.
#[derive(Drop)]
pub struct StdSource<R> {
    inner: R,
    faults: u64,
}

impl<R> StdSource<R> {
    /// A source that reads from `inner` and hasn't failed yet.
    pub fn new(inner: R) -> Self
        ensures reader { source_reader result ≡ inner }
        ensures faults { source_faults result ≡ 0 }
    {
        StdSource { inner, faults: 0 }
    }
}

impl<R: Read> Source for StdSource<R> {
    ghost rest = { λ source. R.remaining (source_reader source) };

    ghost fault_count = { λ source. source_faults source };

    /// One read of the reader, whose error counts as a failing call.
    fn read(&mut self, into: &mut [u8]) -> Result<usize, SourceFault>
        ensures bound { IfOk result (λ count. count ≤ length into.new) }
        ensures bytes { ReadConsumes (R.remaining (source_reader self.old))
            (R.remaining (source_reader self.new)) result into.new }
        ensures cause { HasCause (source_faults self.old) (source_faults self.new) result }
        ensures faults { source_faults self.new ≡ counted (source_faults self.old) result }
    {
        match self.inner.read(into) {
            Ok(count) => Ok(count),
            Err(_) => {
                count_fault(&mut self.faults);
                Err(SourceFault)
            }
        }
    }

    fn faults(&self) -> u64
        ensures { result ≡ source_faults self.now }
    {
        self.faults
    }
}

/// A sink over a standard writer, with a count of the calls that failed. It tells what the writer tells.
///
/// A standard write that takes nothing of a nonempty piece counts as a failing call.
#[derive(Drop)]
pub struct StdSink<W> {
    inner: W,
    faults: u64,
}

impl<W> StdSink<W> {
    /// A sink that writes to `inner` and hasn't failed yet.
    pub fn new(inner: W) -> Self
        ensures writer { sink_writer result ≡ inner }
        ensures faults { sink_faults result ≡ 0 }
    {
        StdSink { inner, faults: 0 }
    }
}

impl<W: Write> Sink for StdSink<W> {
    ghost bytes = { λ sink. W.contents (sink_writer sink) };

    ghost fault_count = { λ sink. sink_faults sink };

    /// One write of the writer. After an error the bytes are as they were.
    fn write(&mut self, from: &[u8]) -> Result<usize, SinkFault>
        ensures bound { IfOk result (λ count. count ≤ length from.now) }
        ensures some { IfOk result (λ count. 0 < length from.now → 0 < count) }
        ensures ok { IfOk result (λ count. Appends (W.contents (sink_writer self.old))
            (W.contents (sink_writer self.new)) (take count from.now)) }
        ensures err { OnErr result (AppendsSome (W.contents (sink_writer self.old))
            (W.contents (sink_writer self.new)) from.now) }
        ensures cause { HasCause (sink_faults self.old) (sink_faults self.new) result }
        ensures same { OnErr result (Keeps (W.contents (sink_writer self.old)) (W.contents (sink_writer self.new))) }
        ensures faults { sink_faults self.new ≡ counted (sink_faults self.old) result }
    {
        match self.inner.write(from) {
            Ok(count) if count > 0 || from.is_empty() => Ok(count),
            _ => {
                count_fault(&mut self.faults);
                Err(SinkFault)
            }
        }
    }

    /// One flush of the writer, whose error counts as a failing call.
    fn flush(&mut self) -> Result<(), SinkFault>
        ensures bytes { Keeps (W.contents (sink_writer self.old)) (W.contents (sink_writer self.new)) }
        ensures cause { HasCause (sink_faults self.old) (sink_faults self.new) result }
        ensures faults { sink_faults self.new ≡ counted (sink_faults self.old) result }
    {
        match self.inner.flush() {
            Ok(()) => Ok(()),
            Err(_) => {
                count_fault(&mut self.faults);
                Err(SinkFault)
            }
        }
    }

    fn faults(&self) -> u64
        ensures { result ≡ sink_faults self.now }
    {
        self.faults
    }
}
