//! A call of the program.
use pb_broker::top;
use pb_io::{ByteSink, ByteSource, Sink, Source};
use pb_pmem::Pmem;
use pb_shared::{Gate, OpenGate};
use std::alloc::{AllocError, Global};
use std::sync::Wait;
use std::thread::Threads;

/// How many bytes move at once at most, and how many a sink has room for.
#[derive(Clone, Copy)]
pub struct Streams {
    pub piece_in: u32,
    pub piece_out: u32,
    pub room: u32,
}

/// Streams that never stand in the way.
pub const WIDE: Streams = Streams {
    piece_in: 65536,
    piece_out: 4096,
    room: 4096,
};

/// What a call left: the device, what was printed, and the status.
#[derive(Drop)]
pub struct Called<P: Drop> {
    pub device: P,
    pub sink: ByteSink,
    pub status: u8,
}

impl<P: Drop> Called<P> {
    /// Whether the call printed just this, and ended with this status.
    pub fn says(&self, text: &str, status: u8) -> bool {
        self.sink.bytes() == text.as_bytes() && self.status == status
    }
}

// The words of a command line, which are parted by white space.
fn words(alloc: Global, line: &str) -> Result<Vec<String>, AllocError> {
    let mut words = Vec::new(alloc);
    for word in line.split_whitespace() {
        words.push(word.to_string(alloc)?)?;
    }
    Ok(words)
}

/// Makes the call of a command line over any source, sink, device and gate, and gives the device back, and the status.
pub fn call_over<R: Wait + Threads + Sync, S: Source, K: Sink, P: Pmem + Send, G: Gate>(
    rt: &R,
    alloc: Global,
    line: &str,
    (source, sink): (&mut S, &mut K),
    device: P,
    gate: &G,
) -> Result<(P, u8), AllocError> {
    let words = words(alloc, line)?;
    let done = top(rt, alloc, &words, source, sink, device, gate);
    Ok((done.device, done.status.code()))
}

/// Makes the call of a command line with a script over such streams in memory, with a gate that is open. A source gives a byte at once
/// where it may give none.
pub fn call<R: Wait + Threads + Sync, P: Pmem + Send>(
    rt: &R,
    alloc: Global,
    device: P,
    line: &str,
    script: &[u8],
    streams: Streams,
) -> Result<Called<P>, AllocError> {
    let mut source = ByteSource::new(alloc, script, streams.piece_in.max(1), &[])?;
    let mut sink = ByteSink::new(alloc, streams.room, streams.piece_out, &[])?;
    let (device, status) = call_over(rt, alloc, line, (&mut source, &mut sink), device, &OpenGate)?;
    Ok(Called {
        device,
        sink,
        status,
    })
}

/// Makes a call that says just this, and gives the device back. None where it says anything else, or memory ran out.
pub fn says<R: Wait + Threads + Sync, P: Pmem + Send>(
    rt: &R,
    alloc: Global,
    device: P,
    (line, script): (&str, &str),
    (text, status): (&str, u8),
) -> Option<P> {
    let called = call(rt, alloc, device, line, script.as_bytes(), WIDE).ok()?;
    if !called.says(text, status) {
        return None;
    }
    Some(called.device)
}
