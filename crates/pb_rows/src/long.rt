//! Sources that are as long as they may be, or longer.
use crate::run::{run_into, sink, source, zeros};
use pb_image::Image;
use std::alloc::Global;
use std::process::Abort;
use std::sync::Wait;
use std::thread::Threads;

// A source of so many bytes, all of one comment without an end.
fn comment(
    rt: &(impl Abort + Wait + Threads + Sync),
    alloc: Global,
    len: usize,
    text: &str,
    status: u8,
) {
    let bytes = vec![in alloc; b'#'; len].expect(rt, "memory");
    let (sunk, code, device) = mapped(rt, alloc, &bytes, 4096);
    let has_region = !device.log().is_empty();
    assert!(rt; code == status && has_region == (status == 0));
    assert!(rt; sunk.as_slice() == text.as_bytes(), "{len} bytes");
}

// What `fresh map 1 1` prints over a source, its status, and the device.
fn mapped(
    rt: &(impl Abort + Wait + Threads + Sync),
    alloc: Global,
    bytes: &[u8],
    room: u32,
) -> (Vec<u8>, u8, Image) {
    let mut source = source(rt, alloc, bytes, 65536, &[]);
    let mut sink = sink(rt, alloc, 2_097_152, 65536);
    let device = zeros(rt, alloc, room);
    let done = run_into(rt, alloc, "fresh map 1 1", &mut source, &mut sink, device);
    let sunk = sink.bytes().to_vec(alloc).expect(rt, "memory");
    (sunk, done.status.code(), done.device)
}

#[test]
fn bytes(rt: HostRuntime) {
    comment(&rt, rt.alloc(), 4_194_305, "long\n", 3);
    comment(&rt, rt.alloc(), 4_194_304, "", 0);
}

// So many lines of a client that asks with rising numbers, each with this text behind its number.
fn numbered(
    rt: &(impl Abort + Wait + Threads + Sync),
    alloc: Global,
    count: u32,
    text: &str,
) -> String {
    let mut lines = String::new(alloc);
    for number in 1..=count {
        let digits = number.to_string(alloc).expect(rt, "memory");
        lines.push_str("0 ").expect(rt, "memory");
        lines.push_str(&digits).expect(rt, "memory");
        lines.push_str(text).expect(rt, "memory");
    }
    lines
}

#[test]
fn request_lines(rt: HostRuntime) {
    let alloc = rt.alloc();
    let many = numbered(&rt, alloc, 32_769, " get 0\n");
    let (text, status, device) = mapped(&rt, alloc, many.as_bytes(), 4096);
    assert!(rt; text.as_slice() == b"many\n".as_slice() && status == 3 && device.log().is_empty());
    let most = numbered(&rt, alloc, 32_768, " get 0\n");
    let want = numbered(&rt, alloc, 32_768, " new is 0 0\n");
    let (text, status, _) = mapped(&rt, alloc, most.as_bytes(), 2_097_152);
    assert!(rt; text.as_slice() == want.as_bytes() && status == 0);
}
