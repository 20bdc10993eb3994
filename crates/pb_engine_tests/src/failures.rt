//! Rounds whose device fails: each of its calls in each way, and then settling, which may fail too.
use crate::cases::{Case, HEAP, MAP, STACK};
use crate::engines::{made_on, serve, settle, tells, told};
use crate::openings::{PICKS, found};
use crate::records::{add_round, log_of_rounds, records_of, settle_ops};
use crate::sixteen::serve_rounds;
use pb_comb::Comb;
use pb_crash::Leaves;
use pb_device_fixtures::{Attempt, WAYS, add, add_failing, failing, left_at, log_of};
use pb_engine::Engine;
use pb_heap::MinHeap;
use pb_image::Image;
use pb_map::RegMap;
use pb_object::Object;
use pb_pmem::{DeviceFault, Line, LogOp};
use pb_stack::Stack;
use std::alloc::Global;
use std::process::Abort;

// A round that fails: its number, how many operations there were before the call that fails, and how that fails. Then settling may fail
// once, in the call after so many.
#[derive(Clone, Copy)]
struct Failure {
    round: usize,
    count: usize,
    how: Leaves,
    settling: Option<(usize, Leaves)>,
}

impl Failure {
    // Whether the round's index word was called.
    fn is_called(&self, case: &Case) -> bool {
        match case.moments.get(self.round) {
            Some(&(word, _)) => word as usize <= self.count.saturating_add(1),
            None => false,
        }
    }

    // After how many rounds the region is settled.
    fn settled_round(&self, case: &Case) -> usize {
        if self.is_called(case) {
            self.round
        } else {
            self.round.saturating_sub(1)
        }
    }
}

// The operations of the round after so many, of which all lines are written.
fn whole_round(
    rt: &impl Abort,
    alloc: Global,
    case: &Case,
    records: &[Vec<Line>],
    round: usize,
) -> Vec<LogOp> {
    assert!(rt; round < 3 && records.len() == 4);
    let mut ops = Vec::new(alloc);
    add_round(
        rt,
        &mut ops,
        case,
        round as u64 + 1,
        None,
        &records[round + 1],
    );
    ops
}

// Adds the calls that settle after so many rounds: first those up to one that fails, where it does.
fn add_settling(rt: &impl Abort, attempts: &mut Vec<Attempt>, failure: &Failure, round: u64) {
    let settling = settle_ops(round);
    if let Some((step, how)) = failure.settling {
        add_failing(attempts, &settling, step, how).expect(rt, "memory");
    }
    add(attempts, &settling, 4).expect(rt, "memory");
}

// The calls that are expected: the round fails, it is settled, and the next round is made.
fn expected(
    rt: &impl Abort,
    alloc: Global,
    case: &Case,
    records: &[Vec<Line>],
    failure: &Failure,
) -> Vec<Attempt> {
    let mut attempts = Vec::new(alloc);
    let ops = log_of_rounds(rt, alloc, case, records);
    add_failing(&mut attempts, &ops, failure.count, failure.how).expect(rt, "memory");
    let round = failure.settled_round(case);
    add_settling(rt, &mut attempts, failure, round as u64);
    let more = whole_round(rt, alloc, case, records, round);
    add(&mut attempts, &more, more.len()).expect(rt, "memory");
    attempts
}

// A device whose calls these are.
fn device_of(rt: &impl Abort, alloc: Global, attempts: &[Attempt]) -> Image {
    failing(alloc, attempts, 256).expect(rt, "memory")
}

// A round fails. What was known before it is told still.
fn fails<O: Object>(
    rt: &impl Abort,
    alloc: Global,
    engine: &mut Comb<O, Image>,
    case: &Case,
    records: &[Vec<Line>],
    round: usize,
) {
    assert!(rt; 1 <= round && round <= 3 && records.len() == 4);
    let before = &records[round - 1];
    let answer = serve(rt, engine, before, &case.rounds[round - 1]);
    assert!(rt; answer == Err(DeviceFault { from: 0, to: 1 }));
    assert!(rt; !engine.sure() && engine.faults() == 1);
    assert!(rt; tells(rt, alloc, engine, before));
}

// A region is made, and takes rounds until one fails.
fn failed<O: Object>(
    rt: &impl Abort,
    alloc: Global,
    device: Image,
    case: &Case,
    records: &[Vec<Line>],
    round: usize,
) -> Comb<O, Image> {
    let mut engine: Comb<O, Image> = made_on(rt, alloc, device, case);
    serve_rounds(
        rt,
        alloc,
        &mut engine,
        case,
        records,
        round.saturating_sub(1),
    );
    fails(rt, alloc, &mut engine, case, records, round);
    engine
}

// Settling fails, and changes nothing.
fn fails_to_settle<O: Object>(rt: &impl Abort, alloc: Global, engine: &mut Comb<O, Image>) {
    let before = told(rt, alloc, engine);
    assert!(rt; settle(rt, engine) == Err(DeviceFault { from: 1, to: 2 }));
    assert!(rt; !engine.sure());
    assert!(rt; tells(rt, alloc, engine, &before));
}

// The round after so many is made.
fn makes<O: Object>(
    rt: &impl Abort,
    alloc: Global,
    engine: &mut Comb<O, Image>,
    case: &Case,
    records: &[Vec<Line>],
    round: usize,
) {
    assert!(rt; round < 3 && records.len() == 4);
    assert!(rt; tells(rt, alloc, engine, &records[round]));
    assert!(rt; serve(rt, engine, &records[round], &case.rounds[round]).is_ok());
    assert!(rt; tells(rt, alloc, engine, &records[round + 1]));
}

// Settles behind a round that failed, and then makes the next one.
fn goes_on<O: Object>(
    rt: &impl Abort,
    alloc: Global,
    engine: &mut Comb<O, Image>,
    case: &Case,
    records: &[Vec<Line>],
    failure: &Failure,
) {
    if failure.settling.is_some() {
        fails_to_settle(rt, alloc, engine);
    }
    assert!(rt; settle(rt, engine) == Ok(failure.is_called(case)));
    assert!(rt; engine.sure());
    makes(
        rt,
        alloc,
        engine,
        case,
        records,
        failure.settled_round(case),
    );
}

// A round fails, and the engine is settled and goes on.
fn settles<O: Object>(
    rt: &impl Abort,
    alloc: Global,
    case: &Case,
    records: &[Vec<Line>],
    failure: &Failure,
) {
    let attempts = expected(rt, alloc, case, records, failure);
    let device = device_of(rt, alloc, &attempts);
    let mut engine: Comb<O, Image> = failed(rt, alloc, device, case, records, failure.round);
    goes_on(rt, alloc, &mut engine, case, records, failure);
    let log = log_of(alloc, &attempts).expect(rt, "memory");
    assert!(rt; engine.close().log() == log.as_slice(), "{}", failure.count);
}

// Settling behind this failure fails in each of its calls, in the same way, or it doesn't.
fn settles_at_last<O: Object>(
    rt: &impl Abort,
    alloc: Global,
    case: &Case,
    records: &[Vec<Line>],
    failure: &Failure,
) {
    settles::<O>(rt, alloc, case, records, failure);
    for step in 0..4 {
        let settling = Some((step, failure.how));
        let failure = Failure {
            settling,
            ..*failure
        };
        settles::<O>(rt, alloc, case, records, &failure);
    }
}

// The index word of a round is among these operations.
fn has_index(ops: &[LogOp], round: usize) -> bool {
    let to = round as u64;
    ops.contains(&LogOp::Word {
        line: 1,
        word: 0,
        to,
    })
}

// A device on which a round failed.
fn left_by<O: Object>(
    rt: &impl Abort,
    alloc: Global,
    case: &Case,
    records: &[Vec<Line>],
    failure: &Failure,
) -> Image {
    let attempts = expected(rt, alloc, case, records, failure);
    let device = device_of(rt, alloc, &attempts);
    let engine: Comb<O, Image> = failed(rt, alloc, device, case, records, failure.round);
    engine.close()
}

// A round fails, and then a crash comes: the region is found after the round before, or after this one if its index word is there.
fn is_found<O: Object>(
    rt: &impl Abort,
    alloc: Global,
    case: &Case,
    records: &[Vec<Line>],
    failure: &Failure,
) {
    let device = left_by::<O>(rt, alloc, case, records, failure);
    assert!(rt; device.log().len() <= 256);
    let moment = device.log().len() as u32;
    let round = failure.round;
    let has_index = has_index(device.log(), round);
    for left in left_at(alloc, &device, moment, &PICKS).expect(rt, "memory") {
        let found = found::<O>(rt, alloc, left.device, records);
        let is_new = has_index && found == Some(round);
        assert!(rt;
            is_new || found == Some(round.saturating_sub(1)),
            "{}",
            failure.count
        );
    }
}

// A call fails in each way.
fn fails_each_way<O: Object>(
    rt: &impl Abort,
    alloc: Global,
    case: &Case,
    records: &[Vec<Line>],
    round: usize,
    count: usize,
) {
    for how in WAYS {
        let failure = Failure {
            round,
            count,
            how,
            settling: None,
        };
        settles_at_last::<O>(rt, alloc, case, records, &failure);
        is_found::<O>(rt, alloc, case, records, &failure);
    }
}

// Each call of the first and of the second round fails in each way.
fn fails_everywhere<O: Object>(rt: &impl Abort, alloc: Global, case: &Case) {
    let records = records_of(rt, alloc, case);
    let [(_, start), (_, first), (_, second), _] = case.moments;
    for count in start..first {
        fails_each_way::<O>(rt, alloc, case, &records, 1, count as usize);
    }
    for count in first..second {
        fails_each_way::<O>(rt, alloc, case, &records, 2, count as usize);
    }
}

#[test]
fn a_map_whose_round_fails_is_settled(rt: HostRuntime) {
    fails_everywhere::<RegMap>(&rt, rt.alloc(), &MAP);
}

#[test]
fn a_stack_whose_round_fails_is_settled(rt: HostRuntime) {
    fails_everywhere::<Stack>(&rt, rt.alloc(), &STACK);
}

#[test]
fn a_heap_whose_round_fails_is_settled(rt: HostRuntime) {
    fails_everywhere::<MinHeap>(&rt, rt.alloc(), &HEAP);
}
