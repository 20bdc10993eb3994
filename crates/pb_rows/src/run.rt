//! A run of the program, with arguments that a test makes.
use pb_broker::{Done, top};
use pb_crash::Leaves;
use pb_image::{Call, Fail as Failure, Image};
use pb_io::{ByteSink, ByteSource, Sink, Source};
use pb_pmem::Pmem;
use pb_shared::{Gate, OpenGate};
use std::alloc::Global;
use std::process::Abort;
use std::sync::Wait;
use std::thread::Threads;

/// A source in memory that gives so many bytes at a time, and fails at these calls.
pub fn source(
    rt: &(impl Abort + Wait + Threads + Sync),
    alloc: Global,
    bytes: &[u8],
    piece: u32,
    fails: &[u64],
) -> ByteSource {
    assert!(rt; 1 <= piece);
    ByteSource::new(alloc, bytes, piece, fails).expect(rt, "memory")
}

/// A sink in memory that takes so many bytes, so many at a time.
pub fn sink(
    rt: &(impl Abort + Wait + Threads + Sync),
    alloc: Global,
    room: u32,
    piece: u32,
) -> ByteSink {
    ByteSink::new(alloc, room, piece, &[]).expect(rt, "memory")
}

/// A device of zeros with this room.
pub fn zeros(rt: &(impl Abort + Wait + Threads + Sync), alloc: Global, room: u32) -> Image {
    Image::zero(alloc, room).expect(rt, "memory")
}

/// A device of zeros that fails in this way at these calls of a kind.
pub fn failing(
    rt: &(impl Abort + Wait + Threads + Sync),
    alloc: Global,
    call: Call,
    fails: &[u64],
    how: Leaves,
) -> Image {
    let mut failures = Vec::new(alloc);
    for nth in fails {
        let nth = *nth;
        failures
            .push(Failure { call, nth, how })
            .expect(rt, "memory");
    }
    let mut device = zeros(rt, alloc, 4096);
    device.failing(failures);
    device
}

// The words of a command line, which are parted by white space.
fn words(rt: &(impl Abort + Wait + Threads + Sync), alloc: Global, line: &str) -> Vec<String> {
    let mut words = Vec::new(alloc);
    for word in line.split_whitespace() {
        let word = word.to_string(alloc).expect(rt, "memory");
        words.push(word).expect(rt, "memory");
    }
    words
}

/// A run of a command line over any source, sink, device and gate.
pub fn run_over<S: Source, K: Sink, P: Pmem + Send, G: Gate>(
    rt: &(impl Abort + Wait + Threads + Sync),
    alloc: Global,
    command: &str,
    (source, sink): (&mut S, &mut K),
    device: P,
    gate: &G,
) -> Done<P> {
    let words = words(rt, alloc, command);
    top(rt, alloc, &words, source, sink, device, gate)
}

/// A run of a command line over a script and a sink that are in memory, with a gate that is open.
pub fn run_into(
    rt: &(impl Abort + Wait + Threads + Sync),
    alloc: Global,
    command: &str,
    source: &mut ByteSource,
    sink: &mut ByteSink,
    device: Image,
) -> Done<Image> {
    run_over(rt, alloc, command, (source, sink), device, &OpenGate)
}

/// A run of a command line over a script, and its sink. Source and sink move at most `piece` bytes a call.
pub fn run(
    rt: &(impl Abort + Wait + Threads + Sync),
    alloc: Global,
    command: &str,
    script: &str,
    piece: u32,
    device: Image,
) -> (Done<Image>, ByteSink) {
    let mut source = source(rt, alloc, script.as_bytes(), piece, &[]);
    let mut sink = sink(rt, alloc, 4096, piece);
    let done = run_into(rt, alloc, command, &mut source, &mut sink, device);
    (done, sink)
}
