//! Drills: scripts that are made from a seed, and the runs after a drill.
use crate::each_call::{Case, fails_at_each};
use crate::rows::{Row, call, calls, chained};
use crate::run::{failing, run_into, sink, source, zeros};
use pb_crash::Leaves;
use pb_image::Call;
use pb_io::Source;
use pb_object::Kind;
use pb_script::{generate, print_script};
use std::alloc::Global;
use std::process::Abort;
use std::sync::Wait;
use std::thread::Threads;

// Formatting is 40 operations, the first round 30, and the second one, which writes five lines, ten.
const DRILLED: Row = (
    "drill 0 1 2",
    "",
    "requests 2\nnew 2\nputs 2\nversions 2\nsteps 2\n",
    0,
    Some(80),
);

const REPORTED: &str =
    "kind map\nclients 1\nsize 64\nrounds 2\nclient 0 2 put 49 407355683 was 0 1\n\
    registers 2\nregister 34 1291394886 1\nregister 49 407355683 1\n";

// A drill makes a region as `fresh` does, and its requests are asked again by the script.
const AGAIN: [Row; 5] = [
    DRILLED,
    ("report", "", REPORTED, 0, Some(80)),
    ("drill 0 1 2", "", "taken\n", 7, Some(80)),
    ("fresh map 1 64", "", "taken\n", 7, Some(80)),
    (
        "run",
        "0 1 put 34 1291394886\n0 2 put 49 407355683\n0 3 get 34\n",
        "0 1 kept was 0 1\n0 2 kept was 0 1\n0 3 new is 1291394886 1\n",
        0,
        None,
    ),
];

#[test]
fn of_two_requests(rt: HostRuntime) {
    chained(&rt, rt.alloc(), &AGAIN);
}

// The sync that makes the region fails: no request was tried.
const NOT_MADE: [Row; 1] = [("drill 0 1 2", "", "device fault\n", 6, Some(39))];

// That of the first round fails: its request is in doubt, and the other one is left. It is recorded all the same.
const IN_DOUBT: [Row; 3] = [
    (
        "drill 0 1 2",
        "",
        "requests 2\nnew 0\nputs 0\nversions 0\nsteps 0\n",
        6,
        Some(69),
    ),
    (
        "run",
        "0 1 put 34 1291394886\n0 2 put 49 407355683\n",
        "0 1 kept was 0 1\n0 2 new was 0 1\n",
        0,
        None,
    ),
    ("report", "", REPORTED, 0, None),
];

#[test]
fn of_a_device_that_fails(rt: HostRuntime) {
    let alloc = rt.alloc();
    let unmade = failing(&rt, alloc, Call::Sync, &[1], Leaves::Left);
    calls(&rt, alloc, unmade, &NOT_MADE);
    let doubtful = failing(&rt, alloc, Call::Sync, &[2], Leaves::Left);
    calls(&rt, alloc, doubtful, &IN_DOUBT);
}

#[test]
fn that_reads_no_source(rt: HostRuntime) {
    let alloc = rt.alloc();
    let mut source = source(&rt, alloc, b"x", 4096, &[1]);
    let mut sink = sink(&rt, alloc, 4096, 4096);
    let device = zeros(&rt, alloc, 4096);
    let done = run_into(&rt, alloc, DRILLED.0, &mut source, &mut sink, device);
    assert!(rt; done.status.code() == 0 && sink.bytes() == DRILLED.2.as_bytes());
    // This is the source's first call, which fails.
    assert!(rt; source.read(&mut [0; 4]).is_err());
}

// Each of the sums is that of the generated requests, whatever the order in which they are applied.
const SIXTEEN: Row = (
    "drill 7 16 2048",
    "",
    "requests 32768\nnew 32768\nputs 24608\nversions 24608\nsteps 4755987\n",
    0,
    None,
);

#[test]
fn of_sixteen_clients_twice(rt: HostRuntime) {
    let alloc = rt.alloc();
    call(&rt, alloc, zeros(&rt, alloc, 2_097_152), &SIXTEEN);
    call(&rt, alloc, zeros(&rt, alloc, 2_097_152), &SIXTEEN);
}

// Two of its puts are to one register.
const FIVE: Case = (
    "drill 5 1 5",
    "0 1 put 12 1305918375\n0 2 put 43 296650451\n0 3 put 24 1240036499\n0 4 put 18 778118301\n\
    0 5 put 18 1184364537\n",
    "requests 5\nnew 5\nputs 5\nversions 5\nsteps 6\n",
    "kind map\nclients 1\nsize 64\nrounds 5\nclient 0 5 put 18 1184364537 was 778118301 2\n\
    registers 4\nregister 12 1305918375 1\nregister 18 1184364537 2\nregister 24 1240036499 1\n\
    register 43 296650451 1\n",
);

// The script that a drill runs, as a source has it.
fn script(rt: &(impl Abort + Wait + Threads + Sync), alloc: Global) -> Vec<u8> {
    let asks = generate(alloc, 5, 1, 5).expect(rt, "memory");
    print_script(alloc, &asks, Kind::Map).expect(rt, "memory")
}

#[test]
fn that_the_script_takes_to_its_end(rt: HostRuntime) {
    let alloc = rt.alloc();
    assert!(rt; script(&rt, alloc).as_slice() == FIVE.1.as_bytes());
    fails_at_each(&rt, alloc, &FIVE, (Call::Any, Leaves::Left), 116);
    fails_at_each(&rt, alloc, &FIVE, (Call::Any, Leaves::Done), 116);
    fails_at_each(&rt, alloc, &FIVE, (Call::Sync, Leaves::Fenced), 6);
}
