//! A call of the program over a device in memory.
use pb_broker::top;
use pb_image::Image;
use pb_io::{ByteSink, ByteSource};
use pb_shared::OpenGate;
use std::alloc::Global;
use std::process::Abort;
use std::sync::Wait;
use std::thread::Threads;

/// How many bytes move at once at most, and how many a sink has room for.
#[derive(Clone, Copy)]
pub struct Streams {
    pub piece_in: u32,
    pub piece_out: u32,
    pub room: u32,
}

/// Streams that never stand in the way.
pub const WIDE: Streams = Streams {
    piece_in: 65536,
    piece_out: 4096,
    room: 4096,
};

// The words of a command line, which are parted by white space.
fn words(rt: &(impl Abort + Wait + Threads + Sync), alloc: Global, line: &str) -> Vec<String> {
    let mut words = Vec::new(alloc);
    for word in line.split_whitespace() {
        let word = word.to_string(alloc).expect(rt, "memory");
        words.push(word).expect(rt, "memory");
    }
    words
}

/// Makes a call over such streams, and gives the device back with what was printed, and the status.
pub fn call(
    rt: &(impl Abort + Wait + Threads + Sync),
    alloc: Global,
    device: Image,
    line: &str,
    script: &[u8],
    streams: Streams,
) -> (Image, ByteSink, u8) {
    let words = words(rt, alloc, line);
    assert!(rt; streams.piece_in >= 1);
    let mut source = ByteSource::new(alloc, script, streams.piece_in, &[]).expect(rt, "memory");
    let mut sink = ByteSink::new(alloc, streams.room, streams.piece_out, &[]).expect(rt, "memory");
    let done = top(rt, alloc, &words, &mut source, &mut sink, device, &OpenGate);
    (done.device, sink, done.status.code())
}

/// Makes a call that says just this.
pub fn says(
    rt: &(impl Abort + Wait + Threads + Sync),
    alloc: Global,
    device: Image,
    (line, script): (&str, &str),
    (text, status): (&str, u8),
) -> Image {
    let (device, sink, code) = call(rt, alloc, device, line, script.as_bytes(), WIDE);
    let is_said = sink.bytes() == text.as_bytes() && code == status;
    assert!(rt; is_said, "{line}: {text}");
    device
}

/// A device of zeros, whose log has so much room.
pub fn zeros(rt: &(impl Abort + Wait + Threads + Sync), alloc: Global, room: u32) -> Image {
    Image::zero(alloc, room).expect(rt, "memory")
}
