//! Sources with any byte at any place, and with lines that are as long as a source may be.
use crate::calls::{Streams, WIDE, call, zeros};
use crate::script::answered;
use std::alloc::Global;
use std::process::Abort;
use std::sync::Wait;
use std::thread::Threads;

// What a source prints on a device without a region, and its status, are these.
fn prints(
    rt: &(impl Abort + Wait + Threads + Sync),
    alloc: Global,
    source: &[u8],
    streams: Streams,
    (text, status): (&str, u8),
) -> bool {
    let device = zeros(rt, alloc, 256);
    let (device, sink, code) = call(rt, alloc, device, "fresh map 1 4", source, streams);
    let is_done = status != 3 || device.log().is_empty();
    is_done && sink.bytes() == text.as_bytes() && code == status
}

// A source with another byte at a place.
fn changed(
    rt: &(impl Abort + Wait + Threads + Sync),
    alloc: Global,
    source: &[u8],
    place: usize,
    to: u8,
) -> Vec<u8> {
    let mut bytes = source.to_vec(alloc).expect(rt, "memory");
    for (at, byte) in bytes.iter_mut().enumerate() {
        if at == place {
            *byte = to;
        }
    }
    bytes
}

// A source is read as a plain reading of it says.
fn is_read(
    rt: &(impl Abort + Wait + Threads + Sync),
    alloc: Global,
    source: &[u8],
    streams: Streams,
) {
    let (text, status) = answered(rt, alloc, source);
    let is_said = prints(rt, alloc, source, streams, (&text, status));
    assert!(rt; is_said, "{source:?}");
}

// Each of these bytes at each place.
fn each_byte(
    rt: &(impl Abort + Wait + Threads + Sync),
    alloc: Global,
    source: &[u8],
    first: u8,
    last: u8,
) {
    for place in 0..source.len() {
        for to in first..=last {
            let bytes = changed(rt, alloc, source, place, to);
            is_read(rt, alloc, &bytes, WIDE);
        }
    }
}

const THREE: &[u8] = b"0 1 put 3 77\r\n#\n0 2\tcas 3 1 9\n 0 3 get 3";

#[test]
fn of_any_bytes(rt: HostRuntime) {
    each_byte(&rt, rt.alloc(), THREE, 0, 127);
}

#[test]
fn of_any_high_bytes(rt: HostRuntime) {
    each_byte(&rt, rt.alloc(), THREE, 128, 255);
}

#[test]
fn in_small_pieces(rt: HostRuntime) {
    let alloc = rt.alloc();
    for piece_in in [1, 7] {
        for piece_out in [1, 7] {
            let streams = Streams {
                piece_in,
                piece_out,
                room: 4096,
            };
            is_read(&rt, alloc, THREE, streams);
            is_read(&rt, alloc, b"0 1 put 3 77\n0 3 get 3\n", streams);
        }
    }
}

/// How long a source may be.
const MOST: usize = 4_194_304;

// A source that is as long as it may be: a front, a byte as often as there is room, and an end.
type Long = (&'static [u8], u8, &'static [u8], &'static str, u8);

const LONG: [Long; 10] = [
    (b"0 1 put 3 ", b'7', b"\n", "line 1\n", 3),
    (b"0 1 put 3 77", b' ', b"\n", "0 1 new was 0 1\n", 0),
    (b"", b'\t', b"0 1 put 3 77", "0 1 new was 0 1\n", 0),
    (b"0 1 put", b' ', b"3 77\r", "0 1 new was 0 1\n", 0),
    (
        b"0 1 put 3 77\n#",
        b'x',
        b"\n0 2 get 3\n",
        "0 1 new was 0 1\n0 2 new is 77 1\n",
        0,
    ),
    (b"0 1 put 3 77\n", b'x', b"\n", "line 2\n", 3),
    (b"0 1 put 3 77\n", b'\n', b"", "0 1 new was 0 1\n", 0),
    (b"", b'\r', b"\n", "line 1\n", 3),
    (b"", 0, b"", "line 1\n", 3),
    (b"0 ", b'0', b"1 get 0\n", "line 1\n", 3),
];

// The bytes of such a source.
fn long_source(
    rt: &(impl Abort + Wait + Threads + Sync),
    alloc: Global,
    (front, byte, end, _, _): Long,
) -> Vec<u8> {
    let count = MOST.saturating_sub(front.len().saturating_add(end.len()));
    let mut source = front.to_vec(alloc).expect(rt, "memory");
    let filling = vec![in alloc; byte; count].expect(rt, "memory");
    source.extend_from_slice(&filling).expect(rt, "memory");
    source.extend_from_slice(end).expect(rt, "memory");
    source
}

#[test]
fn of_lines_as_long_as_a_source(rt: HostRuntime) {
    for long in LONG {
        let source = long_source(&rt, rt.alloc(), long);
        assert!(rt; source.len() == MOST);
        let is_said = prints(&rt, rt.alloc(), &source, WIDE, (long.3, long.4));
        assert!(rt; is_said, "{}", long.3);
    }
}
