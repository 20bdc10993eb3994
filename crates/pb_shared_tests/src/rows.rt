//! Tries of two clients one after the other.
ghost use Rattle.std.specs.Prelude.{◌≡◌, true, All};
ghost use Rattle.pb_shared.specs.Passes.{AreAll, HasOpened, IsOf};

use crate::calls::{again, announce, attempt, perform};
use pb_comb::Comb;
use pb_crash::Leaves;
use pb_image::{Call, Fail, Image};
use pb_map::RegMap;
use pb_object::{Op, Reply};
use pb_pmem::LogOp;
use pb_shared::{Again, Attempt, Pass, Performed, Shared};
use std::alloc::Global;
use std::process::Abort;
use std::test::Fail as Failed;

/// A map of 4 on the device in memory.
pub type MapEngine = Comb<RegMap, Image>;

/// A device of which these syncs fail.
pub fn device(rt: &impl Abort, alloc: Global, room: u32, syncs: &[(u64, Leaves)]) -> Image {
    let mut fails = Vec::new(alloc);
    for sync in syncs {
        let fail = Fail {
            call: Call::Sync,
            nth: sync.0,
            how: sync.1,
        };
        fails.push(fail).expect(rt, "memory");
    }
    let mut device = Image::zero(alloc, room).expect(rt, "memory");
    device.failing(fails);
    device
}

/// A map for so many clients on it.
pub fn map(rt: &impl Abort, alloc: Global, device: Image, clients: u32) -> MapEngine
    ensures sure { result.sure ≡ true }
    ensures clients { result.standing.clients ≡ clients }
{
    assert!(rt; 1 <= clients && clients <= 16);
    match MapEngine::fresh(alloc, device, clients, 4) {
        Ok(engine) => engine,
        Err(_) => panic!(rt; "the map is made"),
    }
}

/// A map that is shared, with the passes of its clients.
pub fn shared(
    rt: &impl Abort,
    alloc: Global,
    engine: MapEngine,
) -> (Shared<MapEngine>, Vec<Pass<MapEngine>>)
    requires { engine.sure ≡ true }
    ensures opened { HasOpened engine result.0 result.1.items }
    ensures all { AreAll result.0 result.1.items }
{
    match Shared::open(alloc, engine) {
        Ok(opened) => opened,
        Err(_) => panic!(rt; "the map is shared"),
    }
}

pub fn put(key: u64, value: u64) -> Op {
    Op {
        code: 2,
        a: key,
        b: value,
        c: 0,
    }
}

fn was(value: u64, version: u64) -> Reply {
    Reply {
        code: 2,
        value,
        extra: version,
    }
}

fn two(
    rt: &impl Abort,
    alloc: Global,
    syncs: &[(u64, Leaves)],
) -> (Shared<MapEngine>, Pass<MapEngine>, Pass<MapEngine>)
    ensures clients { result.0.start.standing.clients ≡ 2 }
    ensures first { IsOf result.0 result.1 }
    ensures second { IsOf result.0 result.2 }
{
    let engine = map(rt, alloc, device(rt, alloc, 4096, syncs), 2);
    let (object, mut passes) = shared(rt, alloc, engine);
    let second = last_of(rt, &object, &mut passes);
    let first = last_of(rt, &object, &mut passes);
    (object, first, second)
}

fn last_of(
    rt: &impl Abort,
    object: &Shared<MapEngine>,
    passes: &mut Vec<Pass<MapEngine>>,
) -> Pass<MapEngine>
    requires { All (IsOf object.now) passes.old.items }
    ensures of { IsOf object.now result }
    ensures rest { All (IsOf object.now) passes.new.items }
{
    let _ = object;
    match passes.pop() {
        Some(pass) => pass,
        None => panic!(rt; "a pass"),
    }
}

fn ended(
    rt: &impl Abort,
    alloc: Global,
    object: Shared<MapEngine>,
    first: Pass<MapEngine>,
    second: Pass<MapEngine>,
) -> Image
    requires clients { object.start.standing.clients ≡ 2 }
    requires first { IsOf object first }
    requires second { IsOf object second }
{
    assert!(rt; first.client() == 0 && second.client() == 1);
    let mut passes = Vec::new(alloc);
    passes.push(second).expect(rt, "memory");
    passes.push(first).expect(rt, "memory");
    object.close(passes).close()
}

// How many operations of a log behind its first ones are such.
fn count_of(log: &[LogOp], first: usize, op: LogOp) -> usize {
    log.iter().skip(first).filter(|other| **other == op).count()
}

// Both announce: one round serves both, and the second finds its reply.
#[test]
fn one_round_serves_both(rt: HostRuntime) {
    let made = map(&rt, rt.alloc(), device(&rt, rt.alloc(), 4096, &[]), 2).close();
    assert!(&rt; made.log().len() == 33);
    let (object, mut first, mut second) = two(&rt, rt.alloc(), &[]);
    let one = announce(&rt, &object, &mut first, &put(0, 5));
    let other = announce(&rt, &object, &mut second, &put(1, 6));
    assert!(&rt; one == 1 && other == 1);
    let answer = attempt(&rt, &object, &mut first);
    assert!(&rt; answer == Attempt::Done(was(0, 1)));
    let answer = attempt(&rt, &object, &mut second);
    assert!(&rt; answer == Attempt::Done(was(0, 1)));
    let device = ended(&rt, rt.alloc(), object, first, second);
    let log = device.log();
    assert!(&rt; log.len() == 56);
    assert!(&rt; count_of(log, 33, LogOp::Fence) == 1 && count_of(log, 33, LogOp::Sync) == 1);
}

// The first one's sync fails: the second one settles, and its round serves it.
#[test]
fn another_settles(rt: HostRuntime) {
    let (object, mut first, mut second) = two(&rt, rt.alloc(), &[(2, Leaves::Left)]);
    announce(&rt, &object, &mut first, &put(0, 5));
    announce(&rt, &object, &mut second, &put(1, 6));
    let answer = attempt(&rt, &object, &mut first);
    assert!(&rt; answer == Attempt::Fault { from: 0, to: 1 });
    let answer = attempt(&rt, &object, &mut second);
    assert!(&rt; answer == Attempt::Done(was(0, 1)));
    let answer = attempt(&rt, &object, &mut first);
    assert!(&rt; answer == Attempt::Done(was(0, 1)));
}

// Where it announces after the fault, the round that it settles lacks its request.
#[test]
fn settling_another_round_is_busy(rt: HostRuntime) {
    let (object, mut first, mut second) = two(&rt, rt.alloc(), &[(2, Leaves::Left)]);
    announce(&rt, &object, &mut first, &put(0, 5));
    let answer = attempt(&rt, &object, &mut first);
    assert!(&rt; answer == Attempt::Fault { from: 0, to: 1 });
    announce(&rt, &object, &mut second, &put(1, 6));
    let answer = attempt(&rt, &object, &mut second);
    assert!(&rt; answer == Attempt::Busy { from: 0, to: 2 });
    let answer = attempt(&rt, &object, &mut second);
    assert!(&rt; answer == Attempt::Done(was(0, 1)));
}

// Settling fails too: the third try settles.
#[test]
fn settling_fails_once(rt: HostRuntime) {
    let (object, mut first, mut second) = two(
        &rt,
        rt.alloc(),
        &[(2, Leaves::Done), (3, Leaves::Left)],
    );
    announce(&rt, &object, &mut first, &put(0, 5));
    announce(&rt, &object, &mut second, &put(1, 6));
    let answer = attempt(&rt, &object, &mut first);
    assert!(&rt; answer == Attempt::Fault { from: 0, to: 1 });
    let answer = attempt(&rt, &object, &mut second);
    assert!(&rt; answer == Attempt::Fault { from: 1, to: 2 });
    let answer = attempt(&rt, &object, &mut first);
    assert!(&rt; answer == Attempt::Done(was(0, 1)));
    let answer = attempt(&rt, &object, &mut second);
    assert!(&rt; answer == Attempt::Done(was(0, 1)));
    let device = ended(&rt, rt.alloc(), object, first, second);
    assert!(&rt; device.log().len() == 63);
}

// Asking again: the kept request, another operation, an old one, a gap.
#[test]
fn asks_again(rt: HostRuntime) {
    let (object, mut first, _second) = two(&rt, rt.alloc(), &[]);
    for number in 1..11 {
        let answer = again(&rt, &object, &mut first, number, &put(0, number));
        assert!(&rt; answer == Again::Announced);
        let performed = perform(&rt, &rt, &object, &mut first);
        assert!(&rt; performed == Performed::Done(was(number - 1, number)));
    }
    let answer = again(&rt, &object, &mut first, 3, &put(0, 3));
    assert!(&rt; answer == Again::Kept(was(2, 3)));
    let answer = again(&rt, &object, &mut first, 2, &put(0, 2));
    assert!(&rt; answer == Again::Old { last: 10 });
    let answer = again(&rt, &object, &mut first, 12, &put(0, 2));
    assert!(&rt; answer == Again::Gap { last: 10 });
    let answer = again(&rt, &object, &mut first, 10, &put(1, 10));
    assert!(&rt; answer == Again::Changed { kept: first.last() });
}
