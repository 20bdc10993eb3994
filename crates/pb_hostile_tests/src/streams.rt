//! Sinks of each room up to a text's length, that take a byte or more at a time: the text's front leaves, and what was applied stays.
use crate::calls::{Streams, call, says, zeros};
use pb_image::Image;
use std::alloc::Global;
use std::process::Abort;
use std::sync::Wait;
use std::thread::Threads;

const FIRST: &str = "0 1 put 3 77\n0 2 get 3\n";

const KEPT: &str = "0 1 kept was 0 1\n0 2 kept is 77 1\n";

const REPORT: &str =
    "kind map\nclients 1\nsize 4\nrounds 2\nclient 0 2 get 3 is 77 1\nregisters 1\nregister 3 77 1\n";

// A call over a sink that may be too small: its words, its source, its text and its status.
type Row = (&'static str, &'static str, &'static str, u8);

// Calls on a device without a region.
const NEW: [Row; 7] = [
    ("now", "", "usage\n", 2),
    ("run", FIRST, "none\n", 7),
    ("report", "", "none\n", 7),
    ("fresh map 1 4", "0 1 put 3\n", "line 1\n", 3),
    (
        "replay map 1 4",
        "ask 0 1 get 0\nstep 0 25\n",
        "0 1 done is 0 0\nkind map\nclients 1\nsize 4\nrounds 1\nclient 0 1 get 0 is 0 0\nregisters 0\n",
        0,
    ),
    ("replay map 1 4", "step 0\n", "line 1\n", 3),
    (
        "fresh map 1 4",
        FIRST,
        "0 1 new was 0 1\n0 2 new is 77 1\n",
        0,
    ),
];

// Calls on the region of the last of these.
const FOUND: [Row; 5] = [
    ("run", FIRST, KEPT, 0),
    ("run", "0 4 get 3\n0 5 get 3\n", "0 4 gap\n0 5 left\n", 8),
    ("run", "0 1 put 3\n", "line 1\n", 3),
    ("report", "", REPORT, 0),
    ("fresh map 1 4", FIRST, "taken\n", 7),
];

// A call over a sink of a room, and the device behind it.
fn cut_off(
    rt: &(impl Abort + Wait + Threads + Sync),
    alloc: Global,
    device: Image,
    row: &Row,
    streams: Streams,
) -> Image {
    let (words, script, text, status) = *row;
    let (device, sink, code) = call(rt, alloc, device, words, script.as_bytes(), streams);
    let (front, _) = text
        .as_bytes()
        .split_at((streams.room as usize).min(text.len()));
    let is_whole = front.len() == text.len();
    let wanted = if is_whole { status } else { 5 };
    assert!(rt;
        sink.bytes() == front && code == wanted,
        "{words} {}",
        front.len()
    );
    device
}

// Each room up to the text's length, a byte or seven at a time.
fn each_room(rt: &(impl Abort + Wait + Threads + Sync), alloc: Global, is_new: bool, row: &Row) {
    let len = row.2.len();
    assert!(rt; len <= 4096);
    for piece in [1, 7] {
        for room in 0..=len as u32 {
            let mut device = zeros(rt, alloc, 4096);
            if !is_new {
                device = says(rt, alloc, device, (NEW[6].0, FIRST), (NEW[6].2, 0));
            }
            let streams = Streams {
                piece_in: piece,
                piece_out: piece,
                room,
            };
            let device = cut_off(rt, alloc, device, row, streams);
            if !device.log().is_empty() {
                let device = says(rt, alloc, device, ("run", FIRST), (KEPT, 0));
                says(rt, alloc, device, ("report", ""), (REPORT, 0));
            }
        }
    }
}

#[test]
fn of_each_room(rt: HostRuntime) {
    for row in &NEW {
        each_room(&rt, rt.alloc(), true, row);
    }
    for row in &FOUND {
        each_room(&rt, rt.alloc(), false, row);
    }
}
