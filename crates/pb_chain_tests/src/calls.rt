//! A call of the program over a device in memory, and what a crash leaves of the device.
use pb_broker::top;
use pb_crash::Leaves;
use pb_image::{Call, Fail, Image};
use pb_io::{ByteSink, ByteSource};
use pb_shared::OpenGate;
use std::alloc::Global;
use std::process::Abort;
use std::sync::Wait;
use std::thread::Threads;

/// How many operations a device's log has room for.
pub const ROOM: u32 = 16384;

/// What a call printed, and its status.
pub type Said = (ByteSink, u8);

/// A device of zeros.
pub fn zeros(rt: &(impl Abort + Wait + Threads + Sync), alloc: Global) -> Image {
    Image::zero(alloc, ROOM).expect(rt, "memory")
}

// The words of a command line, which are parted by white space.
fn words(rt: &(impl Abort + Wait + Threads + Sync), alloc: Global, line: &str) -> Vec<String> {
    let mut words = Vec::new(alloc);
    for word in line.split_whitespace() {
        let word = word.to_string(alloc).expect(rt, "memory");
        words.push(word).expect(rt, "memory");
    }
    words
}

/// Makes a call with a script, and gives the device back.
pub fn call(
    rt: &(impl Abort + Wait + Threads + Sync),
    alloc: Global,
    device: Image,
    line: &str,
    script: &str,
) -> (Image, Said) {
    let words = words(rt, alloc, line);
    let mut source = ByteSource::new(alloc, script.as_bytes(), 4096, &[]).expect(rt, "memory");
    let mut sink = ByteSink::new(alloc, 4096, 4096, &[]).expect(rt, "memory");
    let done = top(rt, alloc, &words, &mut source, &mut sink, device, &OpenGate);
    (done.device, (sink, done.status.code()))
}

/// Makes a call that says just this, and gives the device back.
pub fn says(
    rt: &(impl Abort + Wait + Threads + Sync),
    alloc: Global,
    device: Image,
    (line, script): (&str, &str),
    (text, status): (&str, u8),
) -> Image {
    let (device, (sink, code)) = call(rt, alloc, device, line, script);
    let is_said = sink.bytes() == text.as_bytes() && code == status;
    assert!(rt; is_said, "{line}: {script} {text} {code}");
    device
}

/// Lets a call of the device fail, counted from now on.
pub fn fails(
    rt: &(impl Abort + Wait + Threads + Sync),
    alloc: Global,
    device: &mut Image,
    call: Call,
    nth: u64,
    how: Leaves,
) {
    let mut failures = Vec::new(alloc);
    failures.push(Fail { call, nth, how }).expect(rt, "memory");
    device.failing(failures);
}

/// How many operations a device's log has.
pub fn log_len(rt: &(impl Abort + Wait + Threads + Sync), device: &Image) -> u32 {
    let len = device.log().len();
    assert!(rt; len <= 16384);
    len as u32
}

/// The device that a crash at a moment leaves at a cut.
pub fn after(
    rt: &(impl Abort + Wait + Threads + Sync),
    alloc: Global,
    device: &Image,
    moment: u32,
    (cut, pick): (u32, u64),
) -> Image {
    assert!(rt; moment as usize <= device.log().len());
    let (least, greatest) = device.cuts(moment);
    assert!(rt; least <= cut && cut <= greatest);
    device
        .after_crash(alloc, moment, cut, pick, ROOM)
        .expect(rt, "memory")
}

/// The least and the greatest cut of a crash at a moment.
pub fn cuts(rt: &(impl Abort + Wait + Threads + Sync), device: &Image, moment: u32) -> (u32, u32) {
    assert!(rt; moment as usize <= device.log().len());
    device.cuts(moment)
}
