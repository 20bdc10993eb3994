//! A crash at each moment: an acknowledged request stays, and one that isn't is recorded whole or
//! not at all.
use crate::engine::{Step, made, open, recorded, serve_step, settle, stands_at, two_places};
use pb_device_fixtures::left_at;
use pb_image::Image;
use pb_pair::Why;
use pb_queue::TwinQueue;
use std::alloc::Global;
use std::process::Abort;

// A device on which so many of the steps were served.
fn served(rt: &impl Abort, alloc: Global, steps: &[Step], count: usize) -> Image {
    let mut queue = made(rt, alloc, 1024, 2, 2);
    for step in steps.iter().take(count) {
        serve_step(rt, &mut queue, step);
    }
    queue.close()
}

// How many requests a queue holds that was opened. All else agrees.
fn found_in(rt: &impl Abort, queue: &mut TwinQueue<Image>, steps: &[Step]) -> usize {
    assert!(rt; settle(rt, queue).is_ok());
    let count = recorded(rt, queue, 0) as usize;
    let (head, tail) = match steps.get(count.wrapping_sub(1)) {
        Some(step) => (step.head, step.tail),
        None => (0, 0),
    };
    assert!(rt; count <= steps.len());
    assert!(rt; stands_at(queue, head, tail), "after {count}");
    count
}

// How many requests an opening finds recorded; none where there is no region.
fn found(rt: &impl Abort, alloc: Global, device: Image, steps: &[Step]) -> Option<usize> {
    match open(rt, alloc, device) {
        Ok(mut queue) => Some(found_in(rt, &mut queue, steps)),
        Err(Why::NoRegion) => None,
        Err(_) => panic!(rt; "damaged"),
    }
}

// Whether so many requests may be found where so many are at least, if a region has to be there.
fn may_be_found(least: Option<usize>, count: Option<usize>) -> bool {
    match (least, count) {
        (None, None) => true,
        (None, Some(count)) => count == 0,
        (Some(least), Some(count)) => count >= least && count - least <= 1,
        (Some(_), None) => false,
    }
}

fn crash(
    rt: &impl Abort,
    alloc: Global,
    device: &Image,
    steps: &[Step],
    moment: u32,
    least: Option<usize>,
) {
    assert!(rt; moment as usize <= device.log().len());
    for left in left_at(alloc, device, moment, &[0, 1, 7]).expect(rt, "memory") {
        let count = found(rt, alloc, left.device, steps);
        assert!(rt; may_be_found(least, count), "at {moment}");
    }
}

// How many calls so many steps make, in 0..4096.
fn calls_of(rt: &impl Abort, alloc: Global, steps: &[Step], count: usize) -> u32 {
    let calls = served(rt, alloc, steps, count).log().len();
    assert!(rt; calls < 4096);
    calls as u32
}

#[test]
fn at_each_moment(rt: HostRuntime) {
    let alloc = rt.alloc();
    let steps = two_places();
    let device = served(&rt, alloc, &steps, 6);
    let mut start = 0;
    for count in 0..7 {
        let end = calls_of(&rt, alloc, &steps, count);
        let least = if count == 0 { None } else { Some(count - 1) };
        for moment in start..end {
            crash(&rt, alloc, &device, &steps, moment, least);
        }
        start = end;
    }
    crash(&rt, alloc, &device, &steps, start, Some(6));
}
