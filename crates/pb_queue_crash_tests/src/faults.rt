//! Each device call that a pair makes for the queue fails in each way. Then the pair is settled, which may fail too.
use crate::crashes::openings;
use crate::operations::{queue_log, settle_ops};
use crate::queue::{Change, ROUNDS, ROWS, Row, changed, format, formatted, has_cell, make, tells};
use pb_crash::Leaves;
use pb_device_fixtures::{Attempt, WAYS, add, add_failing, failing, log_of, word};
use pb_image::{Call, Fail, Image};
use pb_pair::{Pair, Why};
use pb_pmem::{DeviceFault, LogOp};
use pb_region_fixtures::open;
use std::alloc::{AllocError, Global};
use std::process::Abort;

// What is told of the first fault.
const FAULT: DeviceFault = DeviceFault { from: 0, to: 1 };

// The call of a change that fails, and how. Then the pair is settled, or its device is opened again and settled.
#[derive(Clone, Copy)]
struct Failure {
    row: Row,
    // The number of operations before it.
    count: usize,
    how: Leaves,
    reopens: bool,
}

impl Failure {
    // Whether the state after the change is settled: a pair knows that it called the index word, and an opening finds it.
    fn switches(&self) -> bool {
        match self.row.switch {
            Some(switch) => {
                switch < self.count
                    || switch == self.count && (self.how == Leaves::Done || !self.reopens)
            }
            None => false,
        }
    }

    fn settled_state(&self) -> usize {
        if self.switches() {
            self.row.after
        } else {
            self.row.before
        }
    }
}

// The calls that are expected: a change fails, then settlings at these steps, and one doesn't.
fn expected(
    rt: &impl Abort,
    alloc: Global,
    failure: &Failure,
    steps: &[(usize, Leaves)],
) -> Result<Vec<Attempt>, AllocError> {
    let mut attempts = Vec::new(alloc);
    let log = queue_log(alloc)?;
    add_failing(&mut attempts, &log, failure.count, failure.how)?;
    let ops = settle_ops(rt, failure.settled_state());
    for (step, how) in steps {
        add_failing(&mut attempts, &ops, *step, *how)?;
    }
    add(&mut attempts, &ops, 5)?;
    Ok(attempts)
}

// Formats a device, and makes the changes up to one that fails, which is told.
fn failed(rt: &impl Abort, alloc: Global, device: Image, row: &Row) -> Pair<Image> {
    let mut pair = formatted(rt, alloc, device);
    for earlier in ROWS {
        if earlier.from < row.from {
            assert!(rt; make(rt, &mut pair, earlier.change).is_ok());
        }
    }
    assert!(rt; make(rt, &mut pair, row.change) == Err(FAULT));
    pair
}

// So many settlings fail one after the other, and then one answers this.
fn settle(rt: &impl Abort, pair: &mut Pair<Image>, failing: usize, called: bool) {
    for count in 0..failing {
        let from = count as u64 + 1;
        let to = from.saturating_add(1);
        assert!(rt; !pair.sure());
        assert!(rt; pair.settle() == Err(DeviceFault { from, to }));
    }
    assert!(rt; !pair.sure());
    assert!(rt; pair.settle() == Ok(called));
    assert!(rt; pair.sure());
}

// The device after a change that fails, and after settlings of which so many fail.
fn settled_after(
    rt: &impl Abort,
    alloc: Global,
    device: Image,
    failure: &Failure,
    failing_settles: usize,
) -> Image {
    let mut pair = failed(rt, alloc, device, &failure.row);
    if failure.reopens {
        pair = open(alloc, pair.close()).expect(rt, "a region");
    }
    let called = failure.switches() && !failure.reopens;
    settle(rt, &mut pair, failing_settles, called);
    assert!(rt; tells(rt, &mut pair, failure.settled_state()));
    pair.close()
}

// The index word that switches from a row's first state to its second.
fn index_word(rt: &impl Abort, row: &Row) -> Option<LogOp> {
    assert!(rt; row.after < 4);
    let [puts, takes] = ROUNDS[row.after];
    match row.change {
        Change::Cell { .. } => None,
        Change::Store { side: 0 } => Some(word(1, 0, puts)),
        Change::Store { .. } => Some(word(2, 0, takes)),
    }
}

// From the failing call on, each crash leaves the state before the change until the index word is there, and either from then on. At the
// end it leaves the state that was settled.
fn look_at_crashes(rt: &impl Abort, alloc: Global, device: &Image, failure: &Failure) {
    let log = device.log();
    let word = index_word(rt, &failure.row);
    assert!(rt; log.len() <= 256);
    for moment in failure.count..log.len() + 1 {
        assert!(rt; moment <= log.len());
        let is_switched = word.is_some_and(|op| log.split_at(moment).0.contains(&op));
        for opening in openings(rt, alloc, device, moment) {
            let is_old = opening.found == Ok(failure.row.before);
            let is_new = is_switched && opening.found == Ok(failure.row.after);
            let is_settled = moment < log.len() || opening.found == Ok(failure.settled_state());
            assert!(rt; is_settled && (is_old || is_new), "moment {moment}");
        }
    }
}

// A change fails, and then settlings at these steps.
fn fails(rt: &impl Abort, alloc: Global, failure: &Failure, steps: &[(usize, Leaves)]) {
    let attempts = expected(rt, alloc, failure, steps).expect(rt, "memory");
    let device = failing(alloc, &attempts, 256).expect(rt, "memory");
    let device = settled_after(rt, alloc, device, failure, steps.len());
    let log = log_of(alloc, &attempts).expect(rt, "memory");
    assert!(rt; device.log() == log.as_slice());
    look_at_crashes(rt, alloc, &device, failure);
}

#[test]
fn a_change_that_fails_is_settled(rt: HostRuntime) {
    for row in ROWS {
        for count in row.from..row.to {
            for how in WAYS {
                for reopens in [false, true] {
                    let failure = Failure {
                        row,
                        count,
                        how,
                        reopens,
                    };
                    fails(&rt, rt.alloc(), &failure, &[]);
                }
            }
        }
    }
}

#[test]
fn settling_that_fails_twice_is_tried_again(rt: HostRuntime) {
    for row in ROWS {
        for step in 0..5 {
            for how in WAYS {
                // The last call of the change fails: the `Back` of a cell, or the `Sync` after an index word.
                let failure = Failure {
                    row,
                    count: row.to.saturating_sub(1),
                    how: Leaves::Left,
                    reopens: step % 2 == 1,
                };
                let steps = [(step, how), ((step + 3) % 5, how)];
                fails(&rt, rt.alloc(), &failure, &steps);
            }
        }
    }
}

// The device that a formatting hands back, of which a call failed.
fn unformatted(rt: &impl Abort, alloc: Global, device: Image) -> Image {
    match format(rt, alloc, device) {
        Ok(_) => panic!(rt; "no call failed"),
        Err(refused) => {
            assert!(rt; refused.why == Why::Device(FAULT));
            refused.device
        }
    }
}

// What a formatting leaves, of whose operations the one after the first `count` fails.
fn format_fails(rt: &impl Abort, alloc: Global, count: usize, how: Leaves) -> Image {
    let mut attempts = Vec::new(alloc);
    let log = queue_log(alloc).expect(rt, "memory");
    add_failing(&mut attempts, &log, count, how).expect(rt, "memory");
    let device = failing(alloc, &attempts, 64).expect(rt, "memory");
    let device = unformatted(rt, alloc, device);
    let log = log_of(alloc, &attempts).expect(rt, "memory");
    assert!(rt; device.log() == log.as_slice());
    device
}

// From a moment on each crash of a formatting leaves no region, or from the magic on the empty queue.
fn is_there_or_not(rt: &impl Abort, alloc: Global, device: &Image, from: usize) {
    let log = device.log();
    for moment in from..log.len() + 1 {
        for opening in openings(rt, alloc, device, moment) {
            // The magic is operation 50.
            let is_there = moment >= 50 && opening.found == Ok(0);
            assert!(rt; is_there || opening.found == Err(Why::NoRegion));
        }
    }
}

#[test]
fn a_formatting_that_fails_leaves_no_queue_or_the_empty_one(rt: HostRuntime) {
    for count in 0..52 {
        for how in WAYS {
            let device = format_fails(&rt, rt.alloc(), count, how);
            is_there_or_not(&rt, rt.alloc(), &device, count);
        }
    }
}

// A device with the changed queue, of which a read fails.
fn changed_failing(rt: &impl Abort, alloc: Global, nth: u64, how: Leaves) -> Image {
    let mut device = changed(rt, alloc);
    let call = Call::Read;
    let fails = [Fail { call, nth, how }].to_vec(alloc).expect(rt, "memory");
    device.failing(fails);
    device
}

// The queue is opened and settled, and a cell is read, while one read fails. Whether it failed.
fn read_fails(rt: &impl Abort, alloc: Global, device: Image) -> bool {
    let mut pair = match Pair::open(alloc, device) {
        Ok(pair) => pair,
        Err(refused) => {
            assert!(rt; refused.why == Why::Device(FAULT));
            assert!(rt; refused.device.log().len() == 114);
            return true;
        }
    };
    settle(rt, &mut pair, 0, false);
    if has_cell(rt, &mut pair, 1, 71) {
        return false;
    }
    assert!(rt; pair.faults() == 1);
    settle(rt, &mut pair, 0, false);
    assert!(rt; tells(rt, &mut pair, 3));
    true
}

#[test]
fn a_read_that_fails_changes_nothing(rt: HostRuntime) {
    for how in WAYS {
        let mut failed = 0;
        for nth in 1..99 {
            let device = changed_failing(&rt, rt.alloc(), nth, how);
            if read_fails(&rt, rt.alloc(), device) {
                assert!(rt; failed == nth - 1);
                failed = nth;
            }
        }
        // At least one of the opening and the one of the cell.
        assert!(rt; failed > 1 && failed < 98);
    }
}
