//! Regions of which words were changed, and what opening them comes to.
use crate::rows::{Row, call, chained};
use pb_image::Image;
use pb_pmem::{LINES, Pmem};
use std::alloc::Global;
use std::process::Abort;
use std::sync::Wait;
use std::thread::Threads;

// A word of a device's line, and what it is changed to.
type Change = (u32, u32, u64);

fn changed(rt: &(impl Abort + Wait + Threads + Sync), device: Image, changes: &[Change]) -> Image {
    let mut device = device;
    for (line, word, to) in changes {
        assert!(rt; *line < LINES && *word < 8 && device.set_word(*line, *word, *to).is_ok());
    }
    device
}

// Makes a region by a row, changes it, and makes the call of another row on it.
fn found(
    rt: &(impl Abort + Wait + Threads + Sync),
    alloc: Global,
    made: &[Row],
    changes: &[Change],
    row: &Row,
) {
    let device = changed(rt, chained(rt, alloc, made), changes);
    call(rt, alloc, device, row);
}

const EMPTY: [Row; 1] = [("fresh map 1 1", "", "", 0, Some(25))];

fn damaged(text: &'static str) -> Row {
    ("run", "", text, 7, None)
}

#[test]
fn of_a_map(rt: HostRuntime) {
    let alloc = rt.alloc();
    for (change, text) in [
        ((0, 0, 0), "none\n"),
        ((0, 1, 1), "damaged 0\n"),
        ((0, 3, 17), "damaged 0\n"),
        ((1, 7, 1), "damaged 1\n"),
        ((2, 0, 1), "damaged 2\n"),
        ((1, 0, 1), "damaged 19\n"),
        ((9, 1, 1), "damaged 9\n"),
        ((10, 1, 1), "damaged 10\n"),
        ((18, 0, 9), "damaged 18\n"),
        ((18, 2, 1), "damaged 18\n"),
    ] {
        found(&rt, alloc, &EMPTY, &[change], &damaged(text));
    }
}

const ONE: [Row; 1] = [(
    "fresh map 1 4",
    "0 1 put 3 77\n",
    "0 1 new was 0 1\n",
    0,
    Some(40),
)];

const HEAP: [Row; 1] = [("fresh heap 1 4", "", "", 0, None)];

const HEAP_REPORT: Row = (
    "report",
    "",
    "kind heap\nclients 1\nsize 4\nrounds 0\nclient 0 none\nitems 2\nitem 3\nitem 9\n",
    0,
    None,
);

#[test]
fn of_other_objects(rt: HostRuntime) {
    let alloc = rt.alloc();
    // Lines are judged behind the opening.
    let script = ("run", "x\n", "damaged 0\n", 7, None);
    found(&rt, alloc, &EMPTY, &[(0, 3, 17)], &script);
    found(
        &rt,
        alloc,
        &EMPTY,
        &[(1, 0, 2), (9, 0, 2)],
        &damaged("damaged 9\n"),
    );
    found(
        &rt,
        alloc,
        &EMPTY,
        &[(19, 0, 9), (28, 7, 9)],
        &("run", "", "", 0, Some(31)),
    );
    found(&rt, alloc, &ONE, &[(1, 0, 3)], &damaged("damaged 19\n"));
    found(
        &rt,
        alloc,
        &HEAP,
        &[(20, 0, 2), (21, 0, 9), (21, 1, 3)],
        &damaged("damaged 21\n"),
    );
    found(
        &rt,
        alloc,
        &HEAP,
        &[(20, 0, 2), (21, 0, 3), (21, 1, 9)],
        &HEAP_REPORT,
    );
}
