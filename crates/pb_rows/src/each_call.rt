//! A run whose device fails at one of its calls, at each of them and in each way, and the runs after it: in the end each
//! request took effect once.
use crate::rows;
use crate::rows::{FIRST, FIRST_REPORT, FRESH_TWO, NEW, TWO, report_two};
use crate::run::{failing, run};
use pb_crash::Leaves;
use pb_image::{Call, Image};
use std::alloc::Global;
use std::process::Abort;
use std::sync::Wait;
use std::thread::Threads;

/// The words that make a region, a script, and what the script prints and the region reports where nothing fails.
pub type Case = (&'static str, &'static str, &'static str, &'static str);

const MAP: Case = ("fresh map 1 4", FIRST, NEW, FIRST_REPORT);

const QUEUE: Case = (
    "fresh queue 1 2",
    "0 1 put 1\n0 2 put 2\n0 3 put 3\n0 4 take\n0 5 put 4\n0 6 take\n",
    "0 1 new at 0\n0 2 new at 1\n0 3 new full\n0 4 new item 1 0\n0 5 new at 2\n0 6 new item 2 1\n",
    "kind queue\nclients 1\nsize 2\nrounds 4 2\nclient 0 6 take item 2 1\nitems 1\nitem 4 2\n",
);

/// Which calls fail, and how. What is torn but no write, or fenced but no sync, leaves nothing.
pub type Way = (Call, Leaves);

// Runs the script again to its end, and makes the region first where there is none.
fn to_the_end(
    rt: &(impl Abort + Wait + Threads + Sync),
    alloc: Global,
    device: Image,
    case: &Case,
) -> Image {
    let (fresh, script, text, _) = *case;
    let (done, sink) = run(rt, alloc, "run", script, 4096, device);
    if done.status.code() == 0 {
        return done.device;
    }
    assert!(rt; done.status.code() == 7 && sink.bytes() == b"none\n".as_slice());
    rows::call(rt, alloc, done.device, &(fresh, script, text, 0, None))
}

// Runs a script whose device fails at a call of a kind, and goes on. Answers whether there was such a call.
fn fails_at(
    rt: &(impl Abort + Wait + Threads + Sync),
    alloc: Global,
    case: &Case,
    (call, how): Way,
    nth: u64,
) -> bool {
    let (fresh, script, _, report) = *case;
    let device = failing(rt, alloc, call, &[nth], how);
    let (done, _) = run(rt, alloc, fresh, script, 4096, device);
    let status = done.status.code();
    assert!(rt; status == 0 || status == 6, "call {nth}");
    let mut device = done.device;
    device.failing(Vec::new(alloc));
    let device = to_the_end(rt, alloc, device, case);
    rows::call(rt, alloc, device, &("report", "", report, 0, None));
    status == 6
}

/// Fails at each call of a kind in one way. There are so many of them.
pub fn fails_at_each(
    rt: &(impl Abort + Wait + Threads + Sync),
    alloc: Global,
    case: &Case,
    way: Way,
    calls: u64,
) {
    let end = calls.saturating_add(1);
    for nth in 1..end {
        assert!(rt; fails_at(rt, alloc, case, way, nth), "call {nth}");
    }
    assert!(rt; !fails_at(rt, alloc, case, way, end));
}

#[test]
fn of_a_map(rt: HostRuntime) {
    fails_at_each(&rt, rt.alloc(), &MAP, (Call::Any, Leaves::Left), 50);
    fails_at_each(&rt, rt.alloc(), &MAP, (Call::Any, Leaves::Done), 50);
    fails_at_each(&rt, rt.alloc(), &MAP, (Call::Write, Leaves::Torn(9)), 26);
    fails_at_each(&rt, rt.alloc(), &MAP, (Call::Sync, Leaves::Fenced), 3);
}

#[test]
fn of_a_queue_that_leaves_nothing(rt: HostRuntime) {
    fails_at_each(&rt, rt.alloc(), &QUEUE, (Call::Any, Leaves::Left), 112);
}

#[test]
fn of_a_queue_that_leaves_something(rt: HostRuntime) {
    fails_at_each(&rt, rt.alloc(), &QUEUE, (Call::Any, Leaves::Done), 112);
    fails_at_each(&rt, rt.alloc(), &QUEUE, (Call::Write, Leaves::Torn(9)), 64);
    fails_at_each(&rt, rt.alloc(), &QUEUE, (Call::Sync, Leaves::Fenced), 7);
}

// Two clients share the region, whose device fails at a call, if there are so many. One of them goes on where the other one's request is in
// doubt, and the script runs to its end behind that.
fn two_fail_at(
    rt: &(impl Abort + Wait + Threads + Sync),
    alloc: Global,
    (call, how): Way,
    nth: u64,
) {
    let device = failing(rt, alloc, call, &[nth], how);
    let (done, _) = run(rt, alloc, FRESH_TWO.0, TWO, 4096, device);
    let status = done.status.code();
    assert!(rt; status == 0 || status == 6, "call {nth}");
    let mut device = done.device;
    device.failing(Vec::new(alloc));
    let (done, _) = run(rt, alloc, "run", TWO, 4096, device);
    let device = if done.status.code() == 7 {
        rows::call(rt, alloc, done.device, &FRESH_TWO)
    } else {
        assert!(rt; done.status.code() == 0, "call {nth}");
        done.device
    };
    report_two(rt, alloc, device);
}

#[test]
fn of_two_clients(rt: HostRuntime) {
    for nth in 1..67 {
        two_fail_at(&rt, rt.alloc(), (Call::Any, Leaves::Left), nth);
        two_fail_at(&rt, rt.alloc(), (Call::Any, Leaves::Done), nth);
    }
}
