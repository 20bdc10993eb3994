//! Regions of which a word or a line was changed, over every line of a small region of each kind: what opening them comes to is what a
//! plain reading of the format says.
use crate::calls::{WIDE, call, says, zeros};
use crate::format::{judge, said};
use pb_image::Image;
use pb_pmem::{LINES, Line, Pmem};
use std::alloc::Global;
use std::process::Abort;
use std::sync::Wait;
use std::thread::Threads;

// The words that make a region, a script with what it prints, and the first line behind the region.
type Region = (&'static str, &'static str, &'static str, u32);

const MAP: Region = (
    "fresh map 1 5",
    "0 1 put 3 77\n0 2 put 4 8\n",
    "0 1 new was 0 1\n0 2 new was 0 1\n",
    33,
);

const STACK: Region = (
    "fresh stack 1 9",
    "0 1 push 5\n0 2 push 6\n",
    "0 1 new depth 1\n0 2 new depth 2\n",
    39,
);

const HEAP: Region = (
    "fresh heap 1 4",
    "0 1 insert 5\n0 2 insert 3\n0 3 insert 4\n",
    "0 1 new size 1\n0 2 new size 2\n0 3 new size 3\n",
    34,
);

const QUEUE: Region = (
    "fresh queue 1 2",
    "0 1 put 7\n0 2 take\n0 3 put 8\n0 4 put 9\n",
    "0 1 new at 0\n0 2 new item 7 0\n0 3 new at 1\n0 4 new at 2\n",
    57,
);

// What a word is changed to.
const VALUES: [u64; 11] = [
    0,
    1,
    2,
    3,
    9,
    17,
    72_057_594_037_927_935,
    72_057_594_037_927_936,
    4_611_686_018_427_387_904,
    4_611_686_018_427_387_905,
    18_446_744_073_709_551_615,
];

// What a run without requests comes to is what a plain reading says, and a refusal does nothing to the device.
fn is_judged(
    rt: &(impl Abort + Wait + Threads + Sync),
    alloc: Global,
    device: Image,
    place: (u32, u32),
    to: u64,
) -> Image {
    let (text, status) = said(rt, alloc, judge(&device));
    let before = device.log().len();
    let (device, sink, code) = call(rt, alloc, device, "run", &[], WIDE);
    let is_said = sink.bytes() == text.as_bytes() && code == status;
    assert!(rt; is_said, "{place:?} {to} {text}");
    assert!(rt;
        status == 0 || device.log().len() == before,
        "{place:?} {to}"
    );
    device
}

// Changes a word to each value, and changes it back.
fn change_word(
    rt: &(impl Abort + Wait + Threads + Sync),
    alloc: Global,
    device: Image,
    line: u32,
    word: u32,
) -> Image {
    assert!(rt; line < LINES && word < 8);
    let whole = device.line(line);
    let old = whole.words[word as usize];
    let mut device = device;
    for to in VALUES {
        assert!(rt; device.set_word(line, word, to).is_ok());
        device = is_judged(rt, alloc, device, (line, word), to);
    }
    for to in [old.wrapping_add(1), old.wrapping_sub(1), old] {
        assert!(rt; device.set_word(line, word, to).is_ok());
        device = is_judged(rt, alloc, device, (line, word), to);
    }
    device
}

// Fills a line with each value, and writes it back.
fn change_line(
    rt: &(impl Abort + Wait + Threads + Sync),
    alloc: Global,
    device: Image,
    line: u32,
) -> Image {
    assert!(rt; line < LINES);
    let old = device.line(line);
    let mut device = device;
    for to in VALUES {
        assert!(rt; device.write(line, &Line { words: [to; 8] }).is_ok());
        device = is_judged(rt, alloc, device, (line, 8), to);
    }
    assert!(rt; device.write(line, &old).is_ok());
    is_judged(rt, alloc, device, (line, 8), 0)
}

// Changes each word of each line of a region, and of one line behind it.
fn change_all(
    rt: &(impl Abort + Wait + Threads + Sync),
    alloc: Global,
    (words, script, text, end): Region,
) {
    let device = zeros(rt, alloc, 131_072);
    let mut device = says(rt, alloc, device, (words, script), (text, 0));
    for line in 0..=end {
        for word in 0..8 {
            device = change_word(rt, alloc, device, line, word);
        }
        device = change_line(rt, alloc, device, line);
    }
}

#[test]
fn of_a_map(rt: HostRuntime) {
    change_all(&rt, rt.alloc(), MAP);
}

#[test]
fn of_a_stack(rt: HostRuntime) {
    change_all(&rt, rt.alloc(), STACK);
}

#[test]
fn of_a_heap(rt: HostRuntime) {
    change_all(&rt, rt.alloc(), HEAP);
}

#[test]
fn of_a_queue(rt: HostRuntime) {
    change_all(&rt, rt.alloc(), QUEUE);
}
