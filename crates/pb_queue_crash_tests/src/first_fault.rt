//! A call of a pair over a queue ends with the first call of its device that fails: that isn't made again, and none is made after it.
use crate::queue::{HEAD, ROWS, format, make};
use pb_crash::Leaves;
use pb_image::{Call, Fail, Image};
use pb_pair::{Pair, Why};
use pb_pmem::DeviceFault;
use pb_region_fixtures::open;
use std::alloc::Global;
use std::process::Abort;

// A device of zeros, of whose calls 64 fail one after the other and leave nothing.
fn failing_from(rt: &impl Abort, alloc: Global, first: u64) -> Image {
    let mut fails = Vec::new(alloc);
    for later in 0..64 {
        let (call, how) = (Call::Any, Leaves::Left);
        let nth = first.saturating_add(later);
        fails.push(Fail { call, nth, how }).expect(rt, "memory");
    }
    let mut device = Image::zero(alloc, 128).expect(rt, "memory");
    device.failing(fails);
    device
}

// A queue is changed, and a cell is read. How it ended.
fn change(rt: &impl Abort, pair: &mut Pair<Image>) -> Result<(), DeviceFault> {
    for row in ROWS {
        make(rt, pair, row.change)?;
    }
    assert!(rt; pair.header() == HEAD);
    match pair.read_cell(1) {
        Ok(_) => Ok(()),
        Err(fault) => Err(fault),
    }
}

// A device is opened again and settled. How it ended.
fn reopen(alloc: Global, device: Image) -> Result<(), Why> {
    let mut pair = open(alloc, device)?;
    match pair.settle() {
        Ok(_) => Ok(()),
        Err(fault) => Err(Why::Device(fault)),
    }
}

// A queue is formatted and changed, a cell is read, and it is opened again and settled. How it ended.
fn session(rt: &impl Abort, alloc: Global, device: Image) -> Result<(), Why> {
    let mut pair = match format(rt, alloc, device) {
        Ok(pair) => pair,
        Err(refused) => return Err(refused.why),
    };
    match change(rt, &mut pair) {
        Ok(()) => reopen(alloc, pair.close()),
        Err(fault) => Err(Why::Device(fault)),
    }
}

#[test]
fn each_call_over_a_queue_ends_with_the_first_fault(rt: HostRuntime) {
    let fault = DeviceFault { from: 0, to: 1 };
    let mut failed = 0;
    for first in 1..300 {
        let device = failing_from(&rt, rt.alloc(), first);
        let ended = session(&rt, rt.alloc(), device);
        if ended != Ok(()) {
            assert!(rt; ended == Err(Why::Device(fault)) && failed == first - 1);
            failed = first;
        }
    }
    // 114 operations, five of settling and some reads.
    assert!(rt; failed > 119 && failed < 299);
}
