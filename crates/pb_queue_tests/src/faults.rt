//! Each device call fails once. Then the queue is settled, and a request that isn't recorded is made
//! again.
use crate::engine::{
    Step, fresh, one_place, open, recorded, serve, serve_step, settle, stands_at, two_places, zeros,
};
use pb_crash::Leaves;
use pb_engine::Engine;
use pb_image::{Call, Fail, Image};
use pb_queue::TwinQueue;
use std::alloc::Global;
use std::process::Abort;

// Settles behind a request that failed, which is made again where it isn't recorded.
fn settle_behind(rt: &impl Abort, queue: &mut TwinQueue<Image>, number: u64, step: &Step) {
    match settle(rt, queue) {
        Ok(landed) => {
            assert!(rt; landed == (recorded(rt, queue, 0) == number));
            if !landed {
                serve_step(rt, queue, step);
            }
        }
        Err(_) => panic!(rt; "the queue is settled"),
    }
}

// Serves a request, also where a call of its round fails. Answers whether one did.
fn serve_through(rt: &impl Abort, queue: &mut TwinQueue<Image>, number: u64, step: &Step) -> bool {
    let answer = serve(rt, queue, 0, &step.op);
    match answer {
        Ok(reply) => assert!(rt; reply == step.reply),
        Err(_) => settle_behind(rt, queue, number, step),
    }
    assert!(rt; recorded(rt, queue, 0) == number);
    assert!(rt; stands_at(queue, step.head, step.tail));
    answer.is_err()
}

// A device of which one call fails.
fn failing(rt: &impl Abort, alloc: Global, fail: Fail) -> Image {
    let mut device = zeros(rt, alloc, 1024);
    let mut fails = Vec::new(alloc);
    fails.push(fail).expect(rt, "memory");
    device.failing(fails);
    device
}

// Opens the queue again on a device whose calls don't fail, and settles it.
fn is_found_again(
    rt: &impl Abort,
    alloc: Global,
    queue: TwinQueue<Image>,
    count: u64,
    last: &Step,
) {
    let mut device = queue.close();
    device.failing(Vec::new(alloc));
    match open(rt, alloc, device) {
        Ok(mut again) => {
            assert!(rt; settle(rt, &mut again).is_ok());
            assert!(rt; stands_at(&again, last.head, last.tail));
            assert!(rt; recorded(rt, &again, 0) == count);
        }
        Err(_) => panic!(rt; "the queue is opened"),
    }
}

// Serves the steps on this queue. Answers whether a call failed.
fn serve_all_through(rt: &impl Abort, queue: &mut TwinQueue<Image>, steps: &[Step]) -> bool {
    let mut failed = false;
    let mut number = 1;
    for step in steps {
        failed = serve_through(rt, queue, number, step) || failed;
        number = number.saturating_add(1);
    }
    failed
}

// Runs the steps on a device of which one call fails. Answers whether it did.
fn run_failing(rt: &impl Abort, alloc: Global, size: u32, steps: &[Step], fail: Fail) -> bool {
    match fresh(rt, alloc, failing(rt, alloc, fail), size) {
        Ok(mut queue) => {
            let failed = serve_all_through(rt, &mut queue, steps);
            match steps.last() {
                Some(last) => is_found_again(rt, alloc, queue, steps.len() as u64, last),
                None => panic!(rt; "no steps"),
            }
            failed
        }
        Err(_) => true,
    }
}

// How many calls there are: each of them fails in this way.
fn calls_that_fail(rt: &impl Abort, alloc: Global, size: u32, steps: &[Step], how: Leaves) -> u64 {
    for nth in 1..400 {
        let fail = Fail {
            call: Call::Any,
            nth,
            how,
        };
        if !run_failing(rt, alloc, size, steps, fail) {
            return nth;
        }
    }
    400
}

fn each_call_fails(rt: &impl Abort, alloc: Global, size: u32, steps: &[Step]) {
    for how in [Leaves::Left, Leaves::Done, Leaves::Torn(9), Leaves::Fenced] {
        let calls = calls_that_fail(rt, alloc, size, steps, how);
        assert!(rt; calls > 100 && calls < 400);
    }
}

#[test]
fn of_a_queue_of_one(rt: HostRuntime) {
    each_call_fails(&rt, rt.alloc(), 1, &one_place());
}

#[test]
fn of_a_queue_of_two(rt: HostRuntime) {
    each_call_fails(&rt, rt.alloc(), 2, &two_places());
}
