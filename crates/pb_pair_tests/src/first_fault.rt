//! A call of a pair ends with the first call of its device that fails: that isn't made again, and none is made after it.
//! And opening reads each line once that it needs.
use pb_crash::Leaves;
use pb_image::{Call, Fail, Image};
use pb_layout::record_len;
use pb_pair::{Pair, Why};
use pb_pmem::DeviceFault;
use pb_region_fixtures::{HEAD, format, store_next, tells, worked, worked_device};
use std::alloc::Global;
use std::process::Abort;

// What is told of the first fault.
const FAULT: Why = Why::Device(DeviceFault { from: 0, to: 1 });

// The calls of a kind are to fail, from one on and so many, and leave nothing.
fn failing(
    rt: &impl Abort,
    alloc: Global,
    device: Image,
    call: Call,
    (first, count): (u64, u64),
) -> Image {
    let mut device = device;
    let mut fails = Vec::new(alloc);
    for later in 0..count {
        let (nth, how) = (first.saturating_add(later), Leaves::Left);
        fails.push(Fail { call, nth, how }).expect(rt, "memory");
    }
    device.failing(fails);
    device
}

// Two stores of the worked region. How they ended.
fn store_twice(rt: &impl Abort, pair: &mut Pair<Image>) -> Result<(), Why> {
    for _ in 0..2 {
        let answer = store_next(pair).expect(rt, "a next record");
        answer.map_err(Why::Device)?;
    }
    Ok(())
}

// A device is formatted and takes two stores. How it ended.
fn format_and_store(rt: &impl Abort, alloc: Global, device: Image) -> Result<(), Why> {
    match format(alloc, device) {
        Some(Ok(mut pair)) => store_twice(rt, &mut pair),
        Some(Err(refused)) => Err(refused.why),
        None => panic!(rt; "the first record isn't one"),
    }
}

#[test]
fn formatting_and_stores_end_with_the_first_fault(rt: HostRuntime) {
    // As many calls are made as there are operations, and the read of line 0.
    let calls = 1 + worked().len() as u64;
    for first in 1..calls + 2 {
        let device = Image::zero(rt.alloc(), 128).expect(&rt, "memory");
        let device = failing(&rt, rt.alloc(), device, Call::Any, (first, 3));
        let ended = format_and_store(&rt, rt.alloc(), device);
        let want = if first <= calls { Err(FAULT) } else { Ok(()) };
        assert!(rt; ended == want, "call {first}");
    }
}

// A region is opened and settled. How it ended.
fn settle(alloc: Global, device: Image) -> Result<(), Why> {
    match Pair::open(alloc, device) {
        Ok(mut pair) => match pair.settle() {
            Ok(_) => Ok(()),
            Err(fault) => Err(Why::Device(fault)),
        },
        Err(refused) => Err(refused.why),
    }
}

#[test]
fn opening_and_settling_end_with_the_first_fault(rt: HostRuntime) {
    // The first three lines and those of a record are read, and settling has four operations.
    let calls = 3 + u64::from(record_len(&HEAD)) + 4;
    for first in 1..calls + 2 {
        let device = worked_device(rt.alloc(), 49).expect(&rt, "memory");
        let device = failing(&rt, rt.alloc(), device, Call::Any, (first, 3));
        let ended = settle(rt.alloc(), device);
        let want = if first <= calls { Err(FAULT) } else { Ok(()) };
        assert!(rt; ended == want, "call {first}");
    }
}

// Whether a region of two rounds is opened whose read of this number fails.
fn opens(rt: &impl Abort, alloc: Global, nth: u64) -> bool {
    let device = worked_device(alloc, 49).expect(rt, "memory");
    match Pair::open(alloc, failing(rt, alloc, device, Call::Read, (nth, 1))) {
        Ok(pair) => tells(&pair, 2),
        Err(refused) => {
            assert!(rt; refused.why == FAULT);
            false
        }
    }
}

#[test]
fn opening_reads_each_line_once(rt: HostRuntime) {
    let needed = 3 + u64::from(record_len(&HEAD));
    assert!(rt; !opens(&rt, rt.alloc(), needed));
    assert!(rt; opens(&rt, rt.alloc(), needed + 1));
}
