//! The calls of a pair on the worked region: formatting, two stores, opening and settling.
ghost use Rattle.std.specs.Prelude.{◌≡◌};
ghost use Rattle.pb_pair.specs.declared.known.Known.TheVariants.{Opened};

use crate::logs::{log, worked_device};
use pb_device_fixtures::{MAGIC, back, word};
use pb_image::Image;
use pb_pair::{Pair, Why};
use pb_pmem::LogOp;
use pb_region_fixtures::{format, get_over_unknown, open, round_of, store_next, tells};
use std::alloc::Global;
use std::process::Abort;

/// A device is formatted as the worked region, and takes the first so many stores.
pub fn stored(rt: &impl Abort, alloc: Global, device: Image, stores: u64) -> Pair<Image> {
    let mut pair = match format(alloc, device) {
        Some(Ok(pair)) => pair,
        _ => panic!(rt; "the region isn't formatted"),
    };
    for _ in 0..stores {
        assert!(rt; store_next(&mut pair) == Some(Ok(())));
    }
    pair
}

/// Opens a device that has a region.
pub fn opened(rt: &impl Abort, alloc: Global, device: Image) -> Pair<Image>
    ensures { result.known ≡ Opened }
{
    open(alloc, device).expect(rt, "a region")
}

/// Settles a pair that isn't sure, with nothing in doubt: it tells what it told.
pub fn settle(rt: &impl Abort, pair: &mut Pair<Image>, round: u64) {
    assert!(rt; !pair.sure() && tells(pair, round));
    assert!(rt; pair.settle() == Ok(false));
    assert!(rt; pair.sure() && tells(pair, round));
}

/// Opens a device, settles it and hands it back, with the round that was found.
pub fn settled(rt: &impl Abort, alloc: Global, device: Image) -> Result<(u64, Image), Why> {
    let mut pair = open(alloc, device)?;
    let round = round_of(&pair).expect(rt, "the worked region");
    settle(rt, &mut pair, round);
    Ok((round, pair.close()))
}

/// The operations of settling after so many rounds.
pub fn settle_ops(round: u64) -> [LogOp; 4] {
    [
        word(0, 0, MAGIC),
        word(1, 0, round),
        back(0, 3),
        LogOp::Sync,
    ]
}

// Columns: the rounds, and the operations so far.
const MOMENTS: [(u64, usize); 3] = [(0, 25), (1, 40), (2, 49)];

// Formatting and the first so many stores make the first so many operations.
fn makes(rt: &impl Abort, alloc: Global, round: u64, count: usize) {
    let device = Image::zero(alloc, 64).expect(rt, "memory");
    let pair = stored(rt, alloc, device, round);
    assert!(rt; pair.sure() && tells(&pair, round) && pair.faults() == 0);
    let ops = log(rt, alloc, count, &[]);
    assert!(rt; pair.close().log() == ops.as_slice());
}

#[test]
fn formatting_and_stores_make_the_worked_operations(rt: HostRuntime) {
    for (round, count) in MOMENTS {
        makes(&rt, rt.alloc(), round, count);
    }
}

// After the first so many operations, settling finds the round and makes its four.
fn settles(rt: &impl Abort, alloc: Global, round: u64, count: usize) {
    let mut pair = opened(rt, alloc, worked_device(rt, alloc, count));
    settle(rt, &mut pair, round);
    let ops = log(rt, alloc, count, &settle_ops(round));
    assert!(rt; pair.close().log() == ops.as_slice());
}

#[test]
fn settling_makes_its_four_operations(rt: HostRuntime) {
    for (round, count) in MOMENTS {
        settles(&rt, rt.alloc(), round, count);
    }
}

#[test]
fn a_store_after_settling_is_the_next_one(rt: HostRuntime) {
    let alloc = rt.alloc();
    let mut pair = opened(&rt, alloc, worked_device(&rt, alloc, 40));
    settle(&rt, &mut pair, 1);
    assert!(rt; store_next(&mut pair) == Some(Ok(())));
    assert!(rt; pair.sure() && tells(&pair, 2));
    // Opening doesn't read the spare record, so all its lines are written.
    let mut ops = log(&rt, alloc, 40, &settle_ops(1));
    ops.extend_from_slice(&get_over_unknown())
        .expect(&rt, "memory");
    assert!(rt; ops.len() == 59 && pair.close().log() == ops.as_slice());
}

// A device with the first so many operations isn't formatted.
fn is_taken(rt: &impl Abort, alloc: Global, count: usize) {
    let ops = log(rt, alloc, count, &[]);
    match format(alloc, worked_device(rt, alloc, count)) {
        Some(Err(refused)) => {
            assert!(rt; refused.why == Why::Taken && refused.device.log() == ops.as_slice());
        }
        _ => panic!(rt; "formatted after {count} operations"),
    }
}

#[test]
fn a_device_with_a_region_is_not_formatted(rt: HostRuntime) {
    // The magic alone is operation 23.
    for count in [23, 25, 40, 49] {
        is_taken(&rt, rt.alloc(), count);
    }
}
