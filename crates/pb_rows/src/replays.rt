//! Schedules that are replayed: what is printed, with which status. The device is left as it was.
use crate::rows::{Row, each_alone};
use crate::run::{run_into, sink, source, zeros};
use std::alloc::Global;
use std::process::Abort;
use std::sync::Wait;
use std::thread::Threads;

// A put and a get; a crash before the get's index word was waited for leaves it. Opening is cut off by further crashes, or isn't.
const CRASHES: [Row; 2] = [
    (
        "replay map 1 4",
        "ask 0 1 put 3 77\nstep 0 26\nask 0 2 get 3\nstep 0 20\ncrash 3 1\nopen 2\ncrash 0 0\nopen 4\ncrash 0 1\nopen 5\n",
        "0 1 done was 0 1\nkind map\nclients 1\nsize 4\nrounds 2\nclient 0 2 get 3 is 77 1\nregisters 1\nregister 3 77 1\n",
        0,
        Some(0),
    ),
    (
        "replay map 1 4",
        "ask 0 1 put 3 77\nstep 0 26\nask 0 2 get 3\nstep 0 20\ncrash 3 1\nopen 5\n",
        "0 1 done was 0 1\nkind map\nclients 1\nsize 4\nrounds 2\nclient 0 2 get 3 is 77 1\nregisters 1\nregister 3 77 1\n",
        0,
        Some(0),
    ),
];

// Each kind of answer, and reports of each kind of object.
const ANSWERS: [Row; 5] = [
    (
        "replay map 1 4",
        "ask 0 1 put 3 77\nstep 0 13\nfail 0 left\nstep 0 2\n",
        "0 1 fault 0 1\nkind map\nclients 1\nsize 4\nrounds 0\nclient 0 none\nregisters 0\n",
        0,
        Some(0),
    ),
    (
        "replay map 2 4",
        "ask 0 1 put 0 5\nstep 0 8\nask 1 1 put 1 6\nstep 1 8\n",
        "1 1 busy 1 1\nkind map\nclients 2\nsize 4\nrounds 0\nclient 0 none\nclient 1 none\nregisters 0\n",
        0,
        Some(0),
    ),
    (
        "replay map 1 4",
        "ask 0 1 get 0\nstep 0 25\n",
        "0 1 done is 0 0\nkind map\nclients 1\nsize 4\nrounds 1\nclient 0 1 get 0 is 0 0\nregisters 0\n",
        0,
        Some(0),
    ),
    (
        "replay queue 1 2",
        "",
        "kind queue\nclients 1\nsize 2\nrounds 0 0\nclient 0 none\nitems 0\n",
        0,
        Some(0),
    ),
    (
        "replay heap 1 4",
        "# nothing yet\n\n",
        "kind heap\nclients 1\nsize 4\nrounds 0\nclient 0 none\nitems 0\n",
        0,
        Some(0),
    ),
];

// Each kind of object, by the steps that its rounds take: the words of the request, the turn, the row and the scan, then the cell of an
// item, the lines of the record that differ and the last five calls, the words of the row, and the turn.
const KINDS: [Row; 5] = [
    (
        "replay stack 1 4",
        "ask 0 1 push 5\nstep 0 27\nask 0 2 pop\nstep 0 26\n",
        "0 1 done depth 1\n0 2 done item 5\nkind stack\nclients 1\nsize 4\nrounds 2\nclient 0 2 pop item 5\nitems 0\n",
        0,
        Some(0),
    ),
    // The pop's index word is called, and a crash takes it back.
    (
        "replay stack 1 4",
        "ask 0 1 push 5\nstep 0 27\nask 0 2 pop\nstep 0 19\ncrash 3 0\nopen 5\n",
        "0 1 done depth 1\nkind stack\nclients 1\nsize 4\nrounds 1\nclient 0 1 push 5 depth 1\nitems 1\nitem 5\n",
        0,
        Some(0),
    ),
    (
        "replay heap 1 4",
        "ask 0 1 insert 9\nstep 0 27\nask 0 2 insert 3\nstep 0 28\nask 0 3 removemin\nstep 0 27\n",
        "0 1 done size 1\n0 2 done size 2\n0 3 done item 3\nkind heap\nclients 1\nsize 4\nrounds 3\nclient 0 3 removemin item 3\nitems 1\nitem 9\n",
        0,
        Some(0),
    ),
    (
        "replay queue 1 2",
        "ask 0 1 put 1\nstep 0 28\nask 0 2 take\nstep 0 26\n",
        "0 1 done at 0\n0 2 done item 1 0\nkind queue\nclients 1\nsize 2\nrounds 1 1\nclient 0 2 take item 1 0\nitems 0\n",
        0,
        Some(0),
    ),
    // The call of the item's cell fails; the next try settles, and puts it.
    (
        "replay queue 1 2",
        "ask 0 1 put 7\nstep 0 13\nfail 0 left\nstep 0 2\nstep 0 28\n",
        "0 1 fault 0 1\n0 1 done at 0\nkind queue\nclients 1\nsize 2\nrounds 1 0\nclient 0 1 put 7 at 0\nitems 1\nitem 7 0\n",
        0,
        Some(0),
    ),
];

// The first line is named that is of no form, or whose events can't all happen.
const REFUSED: [Row; 10] = [
    ("replay map 1 4", "step 0\n", "line 1\n", 3, Some(0)),
    ("replay map 1 4", "ask 0 2 get 0\n", "line 1\n", 3, Some(0)),
    ("replay map 1 4", "ask 0 1 put 3\n", "line 1\n", 3, Some(0)),
    ("replay map 1 4", "open\n", "line 1\n", 3, Some(0)),
    (
        "replay map 1 4",
        "crash 0 0\nopen 5\ncrash 2 0\n",
        "line 3\n",
        3,
        Some(0),
    ),
    (
        "replay map 1 4",
        "# first\nstep 0\nnonsense\n",
        "line 2\n",
        3,
        Some(0),
    ),
    (
        "replay map 1 4",
        "ask 0 1 get 0\nnonsense\nstep 1\n",
        "line 2\n",
        3,
        Some(0),
    ),
    (
        "replay map 1 4",
        "ask 0 1 get 0\n\nstep 0 26\n",
        "line 3\n",
        3,
        Some(0),
    ),
    (
        "replay map 1 4",
        "ask 0 1 get 0\nstep 0 257\n",
        "line 2\n",
        3,
        Some(0),
    ),
    ("replay map 0 4", "", "usage\n", 2, Some(0)),
];

#[test]
fn crashes(rt: HostRuntime) {
    each_alone(&rt, rt.alloc(), &CRASHES);
}

#[test]
fn answers(rt: HostRuntime) {
    each_alone(&rt, rt.alloc(), &ANSWERS);
}

#[test]
fn kinds(rt: HostRuntime) {
    each_alone(&rt, rt.alloc(), &KINDS);
}

#[test]
fn refused(rt: HostRuntime) {
    each_alone(&rt, rt.alloc(), &REFUSED);
}

// What a replay prints over a source that fails at these calls, and its status.
fn replayed(
    rt: &(impl Abort + Wait + Threads + Sync),
    alloc: Global,
    bytes: &[u8],
    fails: &[u64],
    room: u32,
) -> (Vec<u8>, u8) {
    let mut source = source(rt, alloc, bytes, 65536, fails);
    let mut sink = sink(rt, alloc, room, 65536);
    let device = zeros(rt, alloc, 4096);
    let done = run_into(rt, alloc, "replay map 1 4", &mut source, &mut sink, device);
    let sunk = sink.bytes().to_vec(alloc).expect(rt, "memory");
    (sunk, done.status.code())
}

// So many lines that can't happen.
fn openings(rt: &(impl Abort + Wait + Threads + Sync), alloc: Global, count: u32) -> String {
    let mut lines = String::new(alloc);
    for _ in 0..count {
        lines.push_str("open\n").expect(rt, "memory");
    }
    lines
}

#[test]
fn many(rt: HostRuntime) {
    let alloc = rt.alloc();
    let lines = openings(&rt, alloc, 4097);
    let (text, status) = replayed(&rt, alloc, lines.as_bytes(), &[], 4096);
    assert!(rt; text.as_slice() == b"many\n".as_slice() && status == 3);
    let lines = openings(&rt, alloc, 4096);
    let (text, status) = replayed(&rt, alloc, lines.as_bytes(), &[], 4096);
    assert!(rt; text.as_slice() == b"line 1\n".as_slice() && status == 3);
}

#[test]
fn faults(rt: HostRuntime) {
    let alloc = rt.alloc();
    let (text, status) = replayed(&rt, alloc, b"step 0\n", &[1], 4096);
    assert!(rt; text.as_slice() == b"read fault\n".as_slice() && status == 4);
    let (text, status) = replayed(&rt, alloc, b"", &[], 8);
    assert!(rt; text.as_slice() == b"kind map".as_slice() && status == 5);
}
