//! Rounds of sixteen requests: each makes exactly its operations, with one fence and one sync, and then its replies are kept.
use crate::cases::{Case, HEAP_OF_SIXTEEN, MAP_OF_SIXTEEN, STACK_OF_SIXTEEN};
use crate::engines::{made, serve, tells};
use crate::records::{log_of_rounds, records_of};
use pb_comb::Comb;
use pb_engine::Engine;
use pb_heap::MinHeap;
use pb_image::Image;
use pb_map::RegMap;
use pb_object::Object;
use pb_pmem::{Line, LogOp};
use pb_stack::Stack;
use std::alloc::Global;
use std::process::Abort;

/// Serves the first so many rounds of a case, each of which is then told.
pub fn serve_rounds<O: Object>(
    rt: &impl Abort,
    alloc: Global,
    engine: &mut Comb<O, Image>,
    case: &Case,
    records: &[Vec<Line>],
    count: usize,
) {
    assert!(rt; count <= 3 && records.len() == 4);
    for place in 0..count {
        let answer = serve(rt, engine, &records[place], &case.rounds[place]);
        assert!(rt; answer.is_ok() && engine.sure());
        assert!(rt; tells(rt, alloc, engine, &records[place + 1]));
    }
}

/// How often an operation stands among others.
pub fn count_of(ops: &[LogOp], op: &LogOp) -> usize {
    let mut count = 0usize;
    for other in ops {
        if other == op {
            count = count.saturating_add(1);
        }
    }
    count
}

// A region is made, and takes the rounds of a case.
fn takes_rounds<O: Object>(rt: &impl Abort, alloc: Global, case: &Case) -> Image {
    let records = records_of(rt, alloc, case);
    let mut engine: Comb<O, Image> = made(rt, alloc, 512, case);
    assert!(rt; engine.sure() && !records.is_empty());
    assert!(rt; tells(rt, alloc, &engine, &records[0]));
    serve_rounds(rt, alloc, &mut engine, case, &records, 3);
    assert!(rt; engine.faults() == 0);
    let device = engine.close();
    let log = log_of_rounds(rt, alloc, case, &records);
    assert!(rt; device.log() == log.as_slice());
    device
}

// After the rounds there are as many fences and syncs as rounds, beside those of the formatting.
fn fences_once_a_round(rt: &impl Abort, device: &Image) {
    assert_eq!(rt; count_of(device.log(), &LogOp::Fence), 4);
    assert_eq!(rt; count_of(device.log(), &LogOp::Sync), 4);
}

#[test]
fn a_map_serves_sixteen_in_a_round(rt: HostRuntime) {
    fences_once_a_round(
        &rt,
        &takes_rounds::<RegMap>(&rt, rt.alloc(), &MAP_OF_SIXTEEN),
    );
}

#[test]
fn a_stack_serves_sixteen_in_a_round(rt: HostRuntime) {
    fences_once_a_round(
        &rt,
        &takes_rounds::<Stack>(&rt, rt.alloc(), &STACK_OF_SIXTEEN),
    );
}

#[test]
fn a_heap_serves_sixteen_in_a_round(rt: HostRuntime) {
    fences_once_a_round(
        &rt,
        &takes_rounds::<MinHeap>(&rt, rt.alloc(), &HEAP_OF_SIXTEEN),
    );
}
