//! Engines of what a crash leaves: at each moment of two rounds the object and the kept requests are those after none, one or both.
use crate::cases::{Case, HEAP, MAP, STACK};
use crate::engines::{adopt, made, settle, tells, told};
use crate::records::{records_of, settle_ops};
use crate::sixteen::serve_rounds;
use pb_comb::Comb;
use pb_device_fixtures::left_at;
use pb_engine::Engine;
use pb_heap::MinHeap;
use pb_image::Image;
use pb_map::RegMap;
use pb_object::Object;
use pb_pair::{Refused, Why};
use pb_pmem::Line;
use pb_stack::Stack;
use std::alloc::Global;
use std::process::Abort;

/// The picks of which the images are looked at.
pub const PICKS: [u64; 3] = [0, 1, 7];

// Whether the formatting, or the round of this number, counts in what a crash leaves at a moment. It does so once its sync is there; from
// its word to its sync it does so with the greater cut, which settles the word's writes, and where the loose ones aren't all lost.
fn counts(case: &Case, round: usize, moment: u32, cut: u32, pick: u64) -> bool {
    match case.moments.get(round) {
        Some(&(word, end)) => {
            let is_written = word <= moment && u64::from(cut) == 2 * round as u64 + 1 && pick != 0;
            end <= moment || is_written
        }
        None => false,
    }
}

// After how many of two rounds a crash leaves the region, where it leaves one.
fn stop(case: &Case, moment: u32, cut: u32, pick: u64) -> Option<usize> {
    let mut found = None;
    for round in 0..3 {
        if counts(case, round, moment, cut, pick) {
            found = Some(round);
        }
    }
    found
}

// Adopting wrote nothing, and found no region.
fn finds_nothing(rt: &impl Abort, refused: &Refused<Image>) {
    assert!(rt; refused.why == Why::NoRegion);
    assert!(rt; refused.device.log().is_empty());
}

// Settles an engine that was just opened, which tells the same then. The answer is how many rounds there were.
fn settled<O: Object>(
    rt: &impl Abort,
    alloc: Global,
    engine: &mut Comb<O, Image>,
    records: &[Vec<Line>],
) -> u64 {
    let lines = told(rt, alloc, engine);
    assert!(rt; settle(rt, engine) == Ok(false) && engine.sure());
    assert!(rt; tells(rt, alloc, engine, &lines));
    let round = engine.rounds();
    assert!(rt; records.get(round as usize) == Some(&lines));
    round
}

/// After how many rounds a device is found, whose region is adopted, settled and handed back. Settling changes nothing.
pub fn found<O: Object>(
    rt: &impl Abort,
    alloc: Global,
    device: Image,
    records: &[Vec<Line>],
) -> Option<usize> {
    let mut engine: Comb<O, Image> = match adopt(rt, alloc, device) {
        Ok(engine) => engine,
        Err(refused) => {
            finds_nothing(rt, &refused);
            return None;
        }
    };
    let round = settled(rt, alloc, &mut engine, records);
    assert!(rt; engine.close().log() == settle_ops(round).as_slice());
    Some(round as usize)
}

// A device on which two rounds were made.
fn after_two_rounds<O: Object>(
    rt: &impl Abort,
    alloc: Global,
    case: &Case,
    records: &[Vec<Line>],
) -> Image {
    let mut engine: Comb<O, Image> = made(rt, alloc, 128, case);
    serve_rounds(rt, alloc, &mut engine, case, records, 2);
    engine.close()
}

// A crash at a moment of two rounds.
fn finds_at<O: Object>(
    rt: &impl Abort,
    alloc: Global,
    case: &Case,
    device: &Image,
    records: &[Vec<Line>],
    moment: u32,
) {
    assert!(rt; moment as usize <= device.log().len());
    for left in left_at(alloc, device, moment, &PICKS).expect(rt, "memory") {
        let want = stop(case, moment, left.cut, left.pick);
        let found = found::<O>(rt, alloc, left.device, records);
        assert!(rt; found == want, "moment {moment}");
    }
}

// Two rounds, and a crash at each moment of their operations.
fn finds_the_rounds<O: Object>(rt: &impl Abort, alloc: Global, case: &Case) {
    let records = records_of(rt, alloc, case);
    let device = after_two_rounds::<O>(rt, alloc, case, &records);
    let [_, _, (_, end), _] = case.moments;
    assert!(rt; device.log().len() == end as usize);
    for moment in 0..end {
        finds_at::<O>(rt, alloc, case, &device, &records, moment);
    }
    finds_at::<O>(rt, alloc, case, &device, &records, end);
}

#[test]
fn a_map_is_found_after_none_one_or_both_rounds(rt: HostRuntime) {
    finds_the_rounds::<RegMap>(&rt, rt.alloc(), &MAP);
}

#[test]
fn a_stack_is_found_after_none_one_or_both_rounds(rt: HostRuntime) {
    finds_the_rounds::<Stack>(&rt, rt.alloc(), &STACK);
}

#[test]
fn a_heap_is_found_after_none_one_or_both_rounds(rt: HostRuntime) {
    finds_the_rounds::<MinHeap>(&rt, rt.alloc(), &HEAP);
}
