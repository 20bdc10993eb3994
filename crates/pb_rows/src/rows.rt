//! Rows: calls of the program, one after the other on a device in memory.
use crate::run::{run, zeros};
use pb_image::Image;
use std::alloc::Global;
use std::process::Abort;
use std::sync::Wait;
use std::thread::Threads;

/// A call: its words, its source, what it prints, its status, and how many operations the device's log then has, where that is said.
pub type Row = (&'static str, &'static str, &'static str, u8, Option<usize>);

/// A put and a get that finds what was put.
pub const FIRST: &str = "0 1 put 3 77\n0 2 get 3\n";

/// What the first script prints on an empty region.
pub const NEW: &str = "0 1 new was 0 1\n0 2 new is 77 1\n";

/// The first script on a device without a region.
pub const FRESH: Row = ("fresh map 1 4", FIRST, NEW, 0, Some(49));

/// What `report` prints behind the first script.
pub const FIRST_REPORT: &str =
    "kind map\nclients 1\nsize 4\nrounds 2\nclient 0 2 get 3 is 77 1\nregisters 1\nregister 3 77 1\n";

/// A put of each of two clients.
pub const TWO: &str = "0 1 put 0 5\n1 1 put 1 6\n";

/// They are new, and make a region. One round serves both, or each has one of its own.
pub const FRESH_TWO: Row = (
    "fresh map 2 4",
    TWO,
    "0 1 new was 0 1\n1 1 new was 0 1\n",
    0,
    None,
);

// What `report` prints behind them.
const TWO_REPORTS: [&str; 2] = [
    "kind map\nclients 2\nsize 4\nrounds 1\nclient 0 1 put 0 5 was 0 1\nclient 1 1 put 1 6 was 0 1\n\
    registers 2\nregister 0 5 1\nregister 1 6 1\n",
    "kind map\nclients 2\nsize 4\nrounds 2\nclient 0 1 put 0 5 was 0 1\nclient 1 1 put 1 6 was 0 1\n\
    registers 2\nregister 0 5 1\nregister 1 6 1\n",
];

// The log has as many operations as a row says.
fn has_operations(device: &Image, operations: Option<usize>) -> bool {
    match operations {
        Some(count) => device.log().len() == count,
        None => true,
    }
}

/// Makes a row's call on a device, and gives it back.
pub fn call(
    rt: &(impl Abort + Wait + Threads + Sync),
    alloc: Global,
    device: Image,
    row: &Row,
) -> Image {
    let (words, script, text, status, operations) = *row;
    let (done, sink) = run(rt, alloc, words, script, 4096, device);
    let is_said = sink.bytes() == text.as_bytes() && done.status.code() == status;
    assert!(rt;
        is_said && has_operations(&done.device, operations),
        "{words}: {text}"
    );
    done.device
}

/// Makes rows' calls on a device, one after the other, and gives it back.
pub fn calls(
    rt: &(impl Abort + Wait + Threads + Sync),
    alloc: Global,
    device: Image,
    rows: &[Row],
) -> Image {
    let mut device = device;
    for row in rows {
        device = call(rt, alloc, device, row);
    }
    device
}

/// Makes rows' calls, each on a device of zeros of its own.
pub fn each_alone(rt: &(impl Abort + Wait + Threads + Sync), alloc: Global, rows: &[Row]) {
    for row in rows {
        call(rt, alloc, zeros(rt, alloc, 4096), row);
    }
}

/// Makes rows' calls on a device of zeros, one after the other.
pub fn chained(rt: &(impl Abort + Wait + Threads + Sync), alloc: Global, rows: &[Row]) -> Image {
    calls(rt, alloc, zeros(rt, alloc, 4096), rows)
}

/// Reports what the two clients' puts left of a device.
pub fn report_two(
    rt: &(impl Abort + Wait + Threads + Sync),
    alloc: Global,
    device: Image,
) -> Image {
    let (done, sink) = run(rt, alloc, "report", "", 4096, device);
    let is_said = TWO_REPORTS
        .iter()
        .any(|text| sink.bytes() == text.as_bytes());
    assert!(rt; is_said && done.status.code() == 0);
    done.device
}
