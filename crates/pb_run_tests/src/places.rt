//! Sixteen clients over a device of which one call fails, at each place in turn.
use crate::scripts::{Plan, script};
use crate::session::{MapEngine, Ran, run};
use pb_comb::Comb;
use pb_crash::Leaves;
use pb_engine::Engine;
use pb_image::{Call, Fail, Image};
use pb_map::RegMap;
use pb_object::{Answer, Object, Reply};
use pb_report::Outcome;
use std::alloc::Global;
use std::process::Abort;
use std::sync::Wait;
use std::thread::Threads;

const CLIENTS: u32 = 16;

const REQUESTS: u64 = 2;

// More calls than a run makes.
const MOST_CALLS: u64 = 4000;

// Each client puts to a register of its own.
fn reply(number: u64) -> Reply {
    Reply::new(Answer::Was, number.saturating_sub(1), number)
}

// How a call at a place fails: in turns in each way.
fn way(nth: u64) -> Leaves {
    match nth % 4 {
        0 => Leaves::Left,
        1 => Leaves::Done,
        2 => Leaves::Torn(9),
        _ => Leaves::Fenced,
    }
}

// A map of whose device the call at this place fails, where that isn't a call that makes the map.
fn map_failing_at(rt: &impl Abort, alloc: Global, nth: u64) -> Option<MapEngine> {
    let mut device = Image::zero(alloc, 16384).expect(rt, "memory");
    let mut fails = Vec::new(alloc);
    let fail = Fail {
        call: Call::Any,
        nth,
        how: way(nth),
    };
    fails.push(fail).expect(rt, "memory");
    device.failing(fails);
    Comb::<RegMap, Image>::fresh(alloc, device, CLIENTS, CLIENTS).ok()
}

// Each line is new with its reply, but one in doubt for each fault, and those left behind it.
fn has_faults(rt: &impl Abort, ran: &Ran<MapEngine>, faults: u64) {
    let mut doubts = 0u64;
    assert!(rt; ran.outcomes.len() == ran.asks.len());
    for (ask, outcome) in ran.asks.iter().zip(ran.outcomes.iter()) {
        match outcome {
            Outcome::Doubt => doubts = doubts.saturating_add(1),
            Outcome::Left => assert!(rt; faults > 0),
            _ => assert!(rt; *outcome == Outcome::New(reply(ask.number))),
        }
    }
    assert!(rt; doubts == faults);
}

// Each line is kept or new with its reply, and each register has each put once.
fn are_applied_once(rt: &impl Abort, ran: &Ran<MapEngine>) {
    assert!(rt; ran.outcomes.len() == ran.asks.len());
    for (ask, outcome) in ran.asks.iter().zip(ran.outcomes.iter()) {
        let reply = reply(ask.number);
        assert!(rt; *outcome == Outcome::New(reply) || *outcome == Outcome::Kept(reply));
    }
    for client in 0..CLIENTS {
        assert!(rt; client < ran.engine.clients() && client < ran.engine.object().size());
        assert!(rt; ran.engine.kept(client).number == REQUESTS);
        assert!(rt; ran.engine.object().register(client) == (REQUESTS, REQUESTS));
    }
}

// Runs the script over the map, and once more without failures. The answer is how many calls failed.
fn run_twice<R: Wait + Threads + Sync + Abort>(
    rt: &R,
    alloc: Global,
    engine: MapEngine,
    script: &str,
) -> u64 {
    let ran = run(rt, alloc, engine, script);
    let faults = ran.engine.faults();
    has_faults(rt, &ran, faults);
    let again = run(rt, alloc, ran.engine, script);
    assert!(rt; again.engine.faults() == faults);
    are_applied_once(rt, &again);
    faults
}

#[test]
fn a_call_at_each_place_fails(rt: HostRuntime) {
    let alloc = rt.alloc();
    let script = script(&rt, alloc, CLIENTS, REQUESTS, Plan::Registers(CLIENTS));
    let mut places = 0u64;
    for nth in 1..MOST_CALLS {
        let Some(engine) = map_failing_at(&rt, alloc, nth) else {
            continue;
        };
        let faults = run_twice(&rt, alloc, engine, script.as_str());
        assert!(&rt; faults <= 1);
        if faults == 0 {
            assert!(&rt; places > 100);
            return;
        }
        places = places.saturating_add(1);
    }
    panic!(&rt; "the last call is behind all places");
}
