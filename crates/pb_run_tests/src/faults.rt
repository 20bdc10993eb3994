//! Runs of several clients over a device that fails: what holds however their requests come about.
use crate::session::{MapEngine, Ran, map, run};
use pb_engine::Engine;
use pb_object::{Answer, Object, Reply};
use pb_report::Outcome;
use std::alloc::Global;
use std::process::Abort;
use std::sync::Wait;
use std::thread::Threads;

// Each client puts twice to a register of its own, and then reads it.
const SCRIPT: &str = "0 1 put 0 5\n1 1 put 1 5\n2 1 put 2 5\n3 1 put 3 5\n\
    0 2 put 0 6\n1 2 put 1 6\n2 2 put 2 6\n3 2 put 3 6\n\
    0 3 get 0\n1 3 get 1\n2 3 get 2\n3 3 get 3\n";

// The reply of a request under this number.
fn reply(number: u64) -> Reply {
    match number {
        1 => Reply::new(Answer::Was, 0, 1),
        2 => Reply::new(Answer::Was, 5, 2),
        _ => Reply::new(Answer::Is, 6, 2),
    }
}

// How many of the lines are in doubt. The others are new with their replies, or left.
fn doubts(rt: &impl Abort, ran: &Ran<MapEngine>) -> u64 {
    let mut doubts = 0u64;
    assert!(rt; ran.outcomes.len() == ran.asks.len());
    for (ask, outcome) in ran.asks.iter().zip(ran.outcomes.iter()) {
        match outcome {
            Outcome::Doubt => doubts = doubts.saturating_add(1),
            Outcome::Left => {}
            _ => assert!(rt; *outcome == Outcome::New(reply(ask.number))),
        }
    }
    doubts
}

// Each line is kept or new, with its reply.
fn are_answered(rt: &impl Abort, ran: &Ran<MapEngine>) {
    assert!(rt; ran.outcomes.len() == ran.asks.len());
    for (ask, outcome) in ran.asks.iter().zip(ran.outcomes.iter()) {
        let reply = reply(ask.number);
        assert!(rt; *outcome == Outcome::New(reply) || *outcome == Outcome::Kept(reply));
    }
}

// Each register has both puts, and no put twice.
fn are_applied_once(rt: &impl Abort, engine: &MapEngine) {
    for client in 0..4 {
        assert!(rt; client < engine.clients() && client < engine.object().size());
        assert!(rt; engine.kept(client).number == 3);
        assert!(rt; engine.object().register(client) == (6, 2));
    }
}

// Runs the script over a map of whose device these syncs fail, and once more without failures.
fn run_twice<R: Wait + Threads + Sync + Abort>(rt: &R, alloc: Global, syncs: &[u64]) {
    let ran = run(rt, alloc, map(rt, alloc, 4, syncs), SCRIPT);
    let faults = ran.engine.faults();
    assert!(rt; doubts(rt, &ran) == faults);
    assert!(rt; faults == syncs.len() as u64);
    let again = run(rt, alloc, ran.engine, SCRIPT);
    assert!(rt; again.engine.faults() == faults);
    are_answered(rt, &again);
    are_applied_once(rt, &again.engine);
}

#[test]
fn each_fault_leaves_one_line_in_doubt(rt: HostRuntime) {
    let alloc = rt.alloc();
    run_twice(&rt, alloc, &[2]);
    run_twice(&rt, alloc, &[3]);
    run_twice(&rt, alloc, &[2, 3]);
    run_twice(&rt, alloc, &[2, 3, 4]);
}
