//! Clients on threads of their own.
ghost use Rattle.std.specs.Prelude.{◌≡◌, All};
ghost use Rattle.pb_shared.specs.Passes.{IsOf};

use crate::calls::{announce, perform};
use crate::rows::{MapEngine, device, map, put, shared};
use pb_crash::Leaves;
use pb_engine::Engine;
use pb_object::Object;
use pb_shared::{Gate, OpenGate, Pass, Performed, Shared};
use std::alloc::Global;
use std::process::Abort;
use std::sync::Wait;
use std::thread;

const REQUESTS: u64 = 200;

/// A client's thread: its pass, and how many of its requests were answered.
#[derive(Drop)]
struct Worker {
    pass: Pass<MapEngine>,
    done: u64,
    faults: u64,
}

fn work<R: Wait + Abort>(rt: &R, object: &Shared<MapEngine>, worker: &mut Worker)
    requires { IsOf object.now worker.old.pass }
    ensures { IsOf object.now worker.new.pass }
{
    let key = u64::from(worker.pass.client()) % 4;
    for number in 1..REQUESTS + 1 {
        announce(rt, object, &mut worker.pass, &put(key, number));
        serve(rt, object, worker);
    }
}

// Tries again after each fault.
fn serve<R: Wait + Abort>(rt: &R, object: &Shared<MapEngine>, worker: &mut Worker)
    requires { IsOf object.now worker.old.pass }
    ensures { IsOf object.now worker.new.pass }
{
    for _ in 0..1000 {
        match perform(rt, rt, object, &mut worker.pass) {
            Performed::Done(_) => {
                worker.done = worker.done.saturating_add(1);
                return;
            }
            Performed::Fault { from: _, to: _ } => {
                worker.faults = worker.faults.saturating_add(1);
            }
        }
    }
}

// A worker for each pass, the last one first.
fn hired(
    rt: &impl Abort,
    alloc: Global,
    object: &Shared<MapEngine>,
    mut passes: Vec<Pass<MapEngine>>,
) -> Vec<Worker>
    requires { All (IsOf object.now) passes.items }
    ensures { All (λ worker. IsOf object.now worker.pass) result.items }
{
    let _ = object;
    let mut workers = Vec::new(alloc);
    while let Some(pass) = passes.pop() {
        let worker = Worker {
            pass,
            done: 0,
            faults: 0,
        };
        workers.push(worker).expect(rt, "memory");
    }
    workers
}

// The last worker's pass, with its faults: all its requests were answered.
fn ended(
    rt: &impl Abort,
    object: &Shared<MapEngine>,
    workers: &mut Vec<Worker>,
) -> (Pass<MapEngine>, u64)
    requires { All (λ worker. IsOf object.now worker.pass) workers.old.items }
    ensures rest { All (λ worker. IsOf object.now worker.pass) workers.new.items }
    ensures of { IsOf object.now result.0 }
{
    let _ = object;
    match workers.pop() {
        Some(worker) => {
            let Worker { pass, done, faults } = worker;
            assert!(rt; done == REQUESTS);
            assert!(rt; pass.last().number == REQUESTS);
            (pass, faults)
        }
        None => panic!(rt; "a worker"),
    }
}

// The engine, once all four passes are back.
fn closed(
    rt: &impl Abort,
    alloc: Global,
    object: Shared<MapEngine>,
    first: Pass<MapEngine>,
    second: Pass<MapEngine>,
    third: Pass<MapEngine>,
    fourth: Pass<MapEngine>,
) -> MapEngine
    requires clients { object.start.standing.clients ≡ 4 }
    requires first { IsOf object first }
    requires second { IsOf object second }
    requires third { IsOf object third }
    requires fourth { IsOf object fourth }
{
    assert!(rt; first.client() == 3 && second.client() == 2);
    assert!(rt; third.client() == 1 && fourth.client() == 0);
    let mut passes = Vec::new(alloc);
    passes.push(fourth).expect(rt, "memory");
    passes.push(third).expect(rt, "memory");
    passes.push(second).expect(rt, "memory");
    passes.push(first).expect(rt, "memory");
    object.close(passes)
}

#[test]
fn four_threads_are_all_served_once(rt: HostRuntime) {
    let syncs = [
        (5, Leaves::Left),
        (9, Leaves::Done),
        (20, Leaves::Left),
        (21, Leaves::Left),
        (50, Leaves::Fenced),
        (90, Leaves::Left),
    ];
    let engine = map(&rt, rt.alloc(), device(&rt, rt.alloc(), 100000, &syncs), 4);
    let (object, passes) = shared(&rt, rt.alloc(), engine);
    let mut workers = hired(&rt, rt.alloc(), &object, passes);
    thread::for_each_mut(
        &rt,
        workers.as_mut_slice(),
        4,
        &|_, worker|
            requires { IsOf object worker.now.pass }
            ensures { IsOf object worker.exit.now.pass }
        { work(&rt, &object, worker) },
    );
    let fourth = ended(&rt, &object, &mut workers);
    let third = ended(&rt, &object, &mut workers);
    let second = ended(&rt, &object, &mut workers);
    let first = ended(&rt, &object, &mut workers);
    let faults = first
        .1
        .saturating_add(second.1)
        .saturating_add(third.1)
        .saturating_add(fourth.1);
    let engine = closed(
        &rt,
        rt.alloc(),
        object,
        first.0,
        second.0,
        third.0,
        fourth.0,
    );
    assert!(&rt; faults == engine.faults());
    assert!(&rt; faults == 6);
    for client in 0..4 {
        assert!(&rt; client < engine.clients());
        assert!(&rt; engine.kept(client).number == REQUESTS);
        assert!(&rt; client < engine.object().size());
        let register = engine.object().register(client);
        assert!(&rt; register == (REQUESTS, REQUESTS));
    }
    assert!(&rt; engine.rounds() <= 4 * REQUESTS);
}

fn pass<G: Gate>(gate: &G) {
    gate.before(0, 1);
    gate.busy(0, 1);
}

#[test]
fn the_open_gate_holds_nobody() {
    pass(&OpenGate);
}
