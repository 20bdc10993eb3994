//! How many operations rounds of one client and of two make.
use crate::cases::{Case, MAP, Round};
use crate::engines::{kept_at, made, serve};
use crate::records::{first_record, next_record};
use crate::sixteen::count_of;
use pb_comb::Comb;
use pb_image::Image;
use pb_map::RegMap;
use pb_object::Reply;
use pb_pmem::{Line, LogOp};
use std::alloc::Global;
use std::process::Abort;

// Columns: the rounds, and the operations so far. Each round puts a value into a register that is the first of its line.
const PUTS: [(usize, usize); 4] = [(0, 280), (1, 550), (2, 560), (3, 571)];

const ROUNDS: [Round; 3] = [
    Round {
        rows: &[(0, [2, 0, 5, 0], [2, 0, 1])],
        object: &[],
    },
    Round {
        rows: &[(0, [2, 4, 6, 0], [2, 0, 1])],
        object: &[],
    },
    Round {
        rows: &[(0, [2, 8, 7, 0], [2, 0, 1])],
        object: &[],
    },
];

const WAS_0_1: Reply = Reply {
    code: 2,
    value: 0,
    extra: 1,
};

// Serves a round, whose client's reply is `was 0 1`. The answer is the record after it, but for the object's lines.
fn put(
    rt: &impl Abort,
    alloc: Global,
    engine: &mut Comb<RegMap, Image>,
    before: &[Line],
    round: &Round,
) -> Vec<Line> {
    assert!(rt; serve(rt, engine, before, round).is_ok());
    assert!(rt; kept_at(rt, engine, 0, 0).reply == WAS_0_1);
    next_record(rt, alloc, before, round)
}

// How many operations a map of 1,024 registers for one client makes for the first so many puts.
fn operations(rt: &impl Abort, alloc: Global, count: usize) -> usize {
    let case = Case {
        clients: 1,
        size: 1024,
        ..MAP
    };
    let mut engine: Comb<RegMap, Image> = made(rt, alloc, 1024, &case);
    let mut before = first_record(rt, alloc, 265);
    for round in ROUNDS.iter().take(count) {
        before = put(rt, alloc, &mut engine, &before, round);
    }
    engine.close().log().len()
}

#[test]
fn a_round_writes_the_lines_that_differ(rt: HostRuntime) {
    for (count, want) in PUTS {
        assert_eq!(rt; operations(&rt, rt.alloc(), count), want, "{count} puts");
    }
}

// A device made so many operations, with so many fences and as many syncs.
fn made_so_many(rt: &impl Abort, device: &Image, operations: usize, fences: usize) {
    assert_eq!(rt; device.log().len(), operations);
    assert_eq!(rt; count_of(device.log(), &LogOp::Fence), fences);
    assert_eq!(rt; count_of(device.log(), &LogOp::Sync), fences);
}

// A map after one round of two puts.
fn after_two_puts(rt: &impl Abort, alloc: Global) -> Image {
    let mut engine: Comb<RegMap, Image> = made(rt, alloc, 64, &MAP);
    let [first, _, _] = MAP.rounds;
    assert!(rt; serve(rt, &mut engine, &[Line::default(); 18], &first).is_ok());
    for client in 0..2 {
        assert!(rt; kept_at(rt, &engine, client, 0).reply == WAS_0_1);
    }
    engine.close()
}

#[test]
fn two_puts_take_one_fence_and_one_sync(rt: HostRuntime) {
    let alloc = rt.alloc();
    let engine: Comb<RegMap, Image> = made(&rt, alloc, 64, &MAP);
    made_so_many(&rt, &engine.close(), 33, 1);
    made_so_many(&rt, &after_two_puts(&rt, alloc), 56, 2);
}
