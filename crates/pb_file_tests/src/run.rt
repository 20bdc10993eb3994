//! A run of the program over a file, and the folder that the tests' files stand in.
use pb_broker::top;
use pb_io::{ByteSink, ByteSource};
use pb_pmem::Pmem;
use pb_shared::OpenGate;
use std::alloc::Global;
use std::fs;
use std::fs::Files;
use std::process::Abort;
use std::sync::Wait;
use std::thread::Threads;

/// A call: its words, its source, what it prints, and its status.
pub type Row<'a> = (&'a str, &'a str, &'a str, u8);

/// Makes an empty folder for a test, also where an earlier run left one.
pub fn make_folder(rt: &(impl Abort + Files + AllocGlobal), folder: &str) {
    let _ = fs::remove_dir_all(rt, folder);
    fs::create_dir(rt, folder).expect(rt, "a folder");
}

/// Makes a row's call over a device.
pub fn call<P: Pmem + Send>(
    rt: &(impl Abort + Wait + Threads + Sync),
    alloc: Global,
    device: P,
    row: &Row<'_>,
) {
    let (line, script, text, status) = *row;
    let mut words = Vec::new(alloc);
    for word in line.split_whitespace() {
        let word = word.to_string(alloc).expect(rt, "memory");
        words.push(word).expect(rt, "memory");
    }
    let mut source = ByteSource::new(alloc, script.as_bytes(), 4096, &[]).expect(rt, "memory");
    let mut sink = ByteSink::new(alloc, 4096, 4096, &[]).expect(rt, "memory");
    let done = top(rt, alloc, &words, &mut source, &mut sink, device, &OpenGate);
    let is_said = sink.bytes() == text.as_bytes() && done.status.code() == status;
    assert!(rt; is_said, "{line}: {text}");
}

/// How many names a folder has.
pub fn count_names(rt: &(impl Abort + Files + AllocGlobal + Clone), folder: &str) -> usize {
    let mut count = 0usize;
    for name in fs::read_dir(rt, folder).expect(rt, "the folder") {
        name.expect(rt, "a name");
        count = count.saturating_add(1);
    }
    count
}

/// The length of a file.
pub fn length(rt: &(impl Abort + Files), path: &str) -> u64 {
    rt.metadata(path).expect(rt, "the file").len()
}
