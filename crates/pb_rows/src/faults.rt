//! Runs in which a call of the device, the source or the sink fails, and the runs after them.
use crate::rows::{FIRST, FIRST_REPORT, FRESH, FRESH_TWO, NEW, Row, TWO, call, calls, report_two};
use crate::run::{failing, run, run_into, sink, source, zeros};
use pb_crash::Leaves;
use pb_image::{Call, Image};
use std::alloc::Global;
use std::process::Abort;
use std::sync::Wait;
use std::thread::Threads;

const RUN: Row = ("run", FIRST, "0 1 kept was 0 1\n0 2 new is 77 1\n", 0, None);

const REPORT: Row = ("report", "", FIRST_REPORT, 0, None);

// The second sync fails: the first request is in doubt, and is recorded all the same.
const IN_DOUBT: [Row; 3] = [
    ("fresh map 1 4", FIRST, "0 1 doubt\n0 2 left\n", 6, Some(39)),
    RUN,
    REPORT,
];

// The sync that makes the region fails: it is there all the same.
const NOT_SYNCED: [Row; 3] = [
    ("fresh map 1 4", FIRST, "device fault\n", 6, Some(24)),
    ("run", FIRST, NEW, 0, None),
    REPORT,
];

// The fence before it fails: there is no region.
const NOT_FENCED: [Row; 4] = [
    ("fresh map 1 4", FIRST, "device fault\n", 6, Some(21)),
    ("run", FIRST, "none\n", 7, Some(21)),
    ("fresh map 1 4", FIRST, NEW, 0, Some(70)),
    REPORT,
];

// The first read fails.
const NOT_READ: [Row; 2] = [("report", "", "device fault\n", 6, Some(0)), FRESH];

// Settling fails, and the region is as it was.
const NOT_SETTLED: [Row; 3] = [FRESH, ("run", FIRST, "device fault\n", 6, None), REPORT];

// The index word of the second round isn't written: its request is in doubt, and isn't recorded.
const NOT_EXCHANGED: [Row; 3] = [
    (
        "fresh map 1 4",
        FIRST,
        "0 1 new was 0 1\n0 2 doubt\n",
        6,
        Some(46),
    ),
    RUN,
    REPORT,
];

fn over(
    rt: &(impl Abort + Wait + Threads + Sync),
    alloc: Global,
    call: Call,
    nth: u64,
    rows: &[Row],
) -> Image {
    calls(
        rt,
        alloc,
        failing(rt, alloc, call, &[nth], Leaves::Left),
        rows,
    )
}

#[test]
fn of_the_device(rt: HostRuntime) {
    let alloc = rt.alloc();
    over(&rt, alloc, Call::Sync, 2, &IN_DOUBT);
    over(&rt, alloc, Call::Sync, 1, &NOT_SYNCED);
    over(&rt, alloc, Call::Fence, 1, &NOT_FENCED);
    over(&rt, alloc, Call::Read, 1, &NOT_READ);
    over(&rt, alloc, Call::Sync, 4, &NOT_SETTLED);
    over(&rt, alloc, Call::SetWord, 10, &NOT_EXCHANGED);
}

// The sync of the first round of two clients fails: whoever had the round made is in doubt, and the other one settles it.
const ONE_IN_DOUBT: [&str; 2] = [
    "0 1 doubt\n1 1 new was 0 1\n",
    "0 1 new was 0 1\n1 1 doubt\n",
];

const BOTH_KEPT: Row = ("run", TWO, "0 1 kept was 0 1\n1 1 kept was 0 1\n", 0, None);

// Makes the two clients' calls: one of their requests is in doubt, and both are recorded all the same.
fn two_of_whom_one_is_in_doubt(rt: &(impl Abort + Wait + Threads + Sync), alloc: Global) {
    let device = failing(rt, alloc, Call::Sync, &[2], Leaves::Left);
    let (done, sink) = run(rt, alloc, FRESH_TWO.0, TWO, 4096, device);
    let is_said = ONE_IN_DOUBT
        .iter()
        .any(|text| sink.bytes() == text.as_bytes());
    assert!(rt; is_said && done.status.code() == 6);
    let device = call(rt, alloc, done.device, &BOTH_KEPT);
    report_two(rt, alloc, device);
}

#[test]
fn of_a_device_of_two_clients(rt: HostRuntime) {
    for _ in 0..200 {
        two_of_whom_one_is_in_doubt(&rt, rt.alloc());
    }
}

// The status of the first script, what it prints, and how many operations it makes, where the source fails at these reads, and the sink
// takes so many bytes, so many at once.
fn streamed(
    rt: &(impl Abort + Wait + Threads + Sync),
    alloc: Global,
    fails: &[u64],
    room: u32,
    piece: u32,
    row: &Row,
) -> Image {
    let mut source = source(rt, alloc, FIRST.as_bytes(), 1, fails);
    let mut sink = sink(rt, alloc, room, piece);
    let device = zeros(rt, alloc, 4096);
    let done = run_into(rt, alloc, row.0, &mut source, &mut sink, device);
    let is_said = sink.bytes() == row.2.as_bytes() && done.status.code() == row.3;
    assert!(rt; is_said, "{fails:?} {room} {piece}");
    done.device
}

const UNREAD: Row = ("fresh map 1 4", FIRST, "read fault\n", 4, Some(0));

const CUT: Row = ("fresh map 1 4", FIRST, "0 1 n", 5, None);

const SILENT: Row = ("fresh map 1 4", FIRST, "", 5, None);

const KEPT: [Row; 2] = [
    (
        "run",
        FIRST,
        "0 1 kept was 0 1\n0 2 kept is 77 1\n",
        0,
        None,
    ),
    REPORT,
];

#[test]
fn of_source_and_sink(rt: HostRuntime) {
    let alloc = rt.alloc();
    let unread = streamed(&rt, alloc, &[1], 4096, 4096, &UNREAD);
    assert!(rt; unread.log().is_empty());
    streamed(&rt, alloc, &[], 4096, 1, &FRESH);
    // Requests are applied before they are printed.
    let silent = streamed(&rt, alloc, &[], 4096, 0, &SILENT);
    calls(&rt, alloc, silent, &KEPT);
    let cut = streamed(&rt, alloc, &[], 5, 1, &CUT);
    calls(&rt, alloc, cut, &KEPT);
}
