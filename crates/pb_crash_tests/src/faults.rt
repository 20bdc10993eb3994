//! Device calls that fail in a formatting, a store, an opening and its settling: each of them, in each way.
use crate::crash::{first_uncovered, found_at, found_at_the_end};
use crate::found::Found;
use crate::logs::{log, worked_device};
use crate::pair::{opened, settle_ops, settled, stored};
use crate::rounds::told_rounds;
use pb_crash::Leaves;
use pb_device_fixtures::{Attempt, WAYS, add_failing, failing, failures, log_of};
use pb_image::{Call, Fail, Image};
use pb_pair::{Pair, Why};
use pb_pmem::{DeviceFault, LogOp};
use pb_region_fixtures::{format, store_next, tells, worked};
use std::alloc::Global;
use std::process::Abort;

// What is told of the first fault.
const FAULT: DeviceFault = DeviceFault { from: 0, to: 1 };

// The calls that make the first `count` of these operations, and the next one, which fails.
fn failing_at(
    rt: &impl Abort,
    alloc: Global,
    ops: &[LogOp],
    count: usize,
    how: Leaves,
) -> Vec<Attempt> {
    let mut attempts = Vec::new(alloc);
    add_failing(&mut attempts, ops, count, how).expect(rt, "memory");
    attempts
}

// A device of zeros, of which the call after the first `count` of the worked ones fails.
fn failing_device(rt: &impl Abort, alloc: Global, count: usize, how: Leaves) -> Image {
    let attempts = failing_at(rt, alloc, &worked(), count, how);
    failing(alloc, &attempts, 64).expect(rt, "memory")
}

// The log is the first of these operations, and what the failing call of the next one leaves.
fn is_cut_off(
    rt: &impl Abort,
    alloc: Global,
    log: &[LogOp],
    ops: &[LogOp],
    (count, how): (usize, Leaves),
) -> bool {
    let attempts = failing_at(rt, alloc, ops, count, how);
    log == log_of(alloc, &attempts).expect(rt, "memory").as_slice()
}

// From a moment on, each crash leaves the old state up to the word that switches, the new one after the sync of that, and
// either between them.
fn look_at_crashes(
    rt: &impl Abort,
    alloc: Global,
    device: &Image,
    (from, switch): (usize, usize),
    (old, new): (Found, Found),
) {
    let log = device.log();
    for moment in from..log.len() + 1 {
        let is_called = switch <= moment;
        let is_sealed = is_called && log.get(moment.wrapping_sub(1)) == Some(&LogOp::Sync);
        for found in &found_at(rt, alloc, device, moment) {
            let is_old = !is_sealed && *found == old;
            let is_new = is_called && *found == new;
            assert!(rt; is_old || is_new, "moment {moment}");
        }
    }
}

// The device works again: this is found, or the round that is. Once it is settled, each crash leaves the state after that round.
fn finds_again(rt: &impl Abort, alloc: Global, device: Image, want: Result<u64, Why>) {
    let mut device = device;
    device.failing(Vec::new(alloc));
    match settled(rt, alloc, device) {
        Ok((round, device)) => {
            assert!(rt; want == Ok(round));
            for found in &found_at_the_end(rt, alloc, &device) {
                assert!(rt; *found == Found::Round(round));
            }
        }
        Err(why) => assert!(rt; want == Err(why)),
    }
}

// The device that a formatting hands back, of which a call failed.
fn unformatted(rt: &impl Abort, alloc: Global, device: Image) -> Image {
    match format(alloc, device) {
        Some(Err(refused)) => {
            assert!(rt; refused.why == Why::Device(FAULT));
            refused.device
        }
        _ => panic!(rt; "no call failed"),
    }
}

// A device of which a read fails.
fn failing_read(rt: &impl Abort, alloc: Global, device: Image, nth: u64, how: Leaves) -> Image {
    let mut device = device;
    let call = Call::Read;
    let fails = [Fail { call, nth, how }].to_vec(alloc).expect(rt, "memory");
    device.failing(fails);
    device
}

#[test]
fn a_formatting_whose_read_fails_writes_nothing(rt: HostRuntime) {
    for how in WAYS {
        let device = Image::zero(rt.alloc(), 64).expect(&rt, "memory");
        let device = failing_read(&rt, rt.alloc(), device, 1, how);
        let device = unformatted(&rt, rt.alloc(), device);
        assert!(rt; device.log().is_empty());
        finds_again(&rt, rt.alloc(), device, Err(Why::NoRegion));
    }
}

// What a formatting leaves, of whose operations the one after the first `count` fails.
fn format_fails(rt: &impl Abort, alloc: Global, count: usize, how: Leaves) {
    let device = unformatted(rt, alloc, failing_device(rt, alloc, count, how));
    assert!(rt; is_cut_off(rt, alloc, device.log(), &worked(), (count, how)));
    // The magic is operation 23.
    look_at_crashes(
        rt,
        alloc,
        &device,
        (0, 23),
        (Found::Nothing, Found::Round(0)),
    );
    let is_there = device.log().len() >= 23;
    let want = if is_there { Ok(0) } else { Err(Why::NoRegion) };
    finds_again(rt, alloc, device, want);
}

#[test]
fn a_formatting_that_fails_leaves_no_region_or_the_empty_one(rt: HostRuntime) {
    for count in 0..25 {
        for how in WAYS {
            format_fails(&rt, rt.alloc(), count, how);
        }
    }
}

// What the store after so many others leaves, on a device that fails then.
fn failed_store(rt: &impl Abort, alloc: Global, on: Image, stores: u64) -> Image {
    let mut pair = stored(rt, alloc, on, stores);
    assert!(rt; store_next(&mut pair) == Some(Err(FAULT)));
    assert!(rt; !pair.sure() && tells(&pair, stores) && pair.faults() == 1);
    pair.close()
}

// The store after so many others, which begins at a moment and whose index word is at another, and of whose operations the one after the
// first `count` fails.
fn store_fails(
    rt: &impl Abort,
    alloc: Global,
    (stores, from, switch): (u64, usize, usize),
    (count, how): (usize, Leaves),
) {
    let on = failing_device(rt, alloc, count, how);
    let device = failed_store(rt, alloc, on, stores);
    assert!(rt; is_cut_off(rt, alloc, device.log(), &worked(), (count, how)));
    let next = stores.saturating_add(1);
    let states = (Found::Round(stores), Found::Round(next));
    look_at_crashes(rt, alloc, &device, (from, switch), states);
    let is_switched = device.log().len() >= switch;
    let round = if is_switched { next } else { stores };
    finds_again(rt, alloc, device, Ok(round));
}

#[test]
fn a_store_that_fails_leaves_the_state_before_it_or_after_it(rt: HostRuntime) {
    for how in WAYS {
        for count in 25..40 {
            store_fails(&rt, rt.alloc(), (0, 25, 38), (count, how));
        }
        for count in 40..49 {
            store_fails(&rt, rt.alloc(), (1, 40, 47), (count, how));
        }
    }
}

#[test]
fn settling_seals_the_round_of_a_failed_store(rt: HostRuntime) {
    // The last sync fails.
    let on = failing_device(&rt, rt.alloc(), 48, Leaves::Left);
    let mut pair = opened(&rt, rt.alloc(), failed_store(&rt, rt.alloc(), on, 1));
    assert!(rt; tells(&pair, 2) && pair.settle() == Ok(false));
    let device = pair.close();
    assert!(rt; first_uncovered(&rt, rt.alloc(), &device).is_none());
    let rounds = told_rounds(&rt, rt.alloc(), device.log());
    assert!(rt; rounds.len() == 2);
    assert!(rt; rounds[0].moment == Some(40) && rounds[1].moment == Some(52));
}

// A device that holds two rounds is opened, while a read fails. Whether it failed.
fn read_fails(rt: &impl Abort, alloc: Global, nth: u64, how: Leaves) -> bool {
    let device = failing_read(rt, alloc, worked_device(rt, alloc, 49), nth, how);
    match Pair::open(alloc, device) {
        Ok(pair) => {
            assert!(rt; tells(&pair, 2));
            false
        }
        Err(refused) => {
            assert!(rt; refused.why == Why::Device(FAULT));
            assert!(rt; refused.device.log() == worked().as_slice());
            true
        }
    }
}

#[test]
fn a_read_that_fails_leaves_the_region_unopened(rt: HostRuntime) {
    for how in WAYS {
        let mut failed = 0;
        for nth in 1..64 {
            if read_fails(&rt, rt.alloc(), nth, how) {
                assert!(rt; failed == nth - 1);
                failed = nth;
            }
        }
        assert!(rt; failed > 0 && failed < 63);
    }
}

// What settling leaves after two rounds, where one of its calls fails.
fn failed_settling(rt: &impl Abort, alloc: Global, device: Image) -> Image {
    let mut pair = opened(rt, alloc, device);
    assert!(rt; pair.settle() == Err(FAULT));
    assert!(rt; !pair.sure() && tells(&pair, 2));
    pair.close()
}

// Settling after the first `count` operations of the worked log, of whose own the one after the first `step` fails: round 2 is
// found, and each crash leaves it or, until it is sealed, the old state.
fn settle_fails(
    rt: &impl Abort,
    alloc: Global,
    (count, old): (usize, Found),
    (step, how): (usize, Leaves),
) {
    let mut device = worked_device(rt, alloc, count);
    let attempts = failing_at(rt, alloc, &settle_ops(2), step, how);
    device.failing(failures(alloc, &attempts).expect(rt, "memory"));
    let device = failed_settling(rt, alloc, device);
    let ops = log(rt, alloc, count, &settle_ops(2));
    assert!(rt;
        is_cut_off(
            rt,
            alloc,
            device.log(),
            &ops,
            (count.wrapping_add(step), how)
        )
    );
    // The index word is operation 47.
    look_at_crashes(rt, alloc, &device, (count, 47), (old, Found::Round(2)));
    finds_again(rt, alloc, device, Ok(2));
}

#[test]
fn settling_that_fails_leaves_what_was_found(rt: HostRuntime) {
    // At rest, and before the sync that seals round 2.
    for (count, old) in [(49, Found::Round(2)), (48, Found::Round(1))] {
        for step in 0..4 {
            for how in WAYS {
                settle_fails(&rt, rt.alloc(), (count, old), (step, how));
            }
        }
    }
}
