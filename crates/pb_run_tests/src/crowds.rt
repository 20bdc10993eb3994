//! Sixteen clients with many requests each, in every kind.
use crate::scripts::{Plan, script};
use crate::session::{Ran, run};
use crate::told::{object_gives, queue_gives, reply_of, told_by};
use pb_comb::Comb;
use pb_engine::Engine;
use pb_heap::MinHeap;
use pb_image::Image;
use pb_map::RegMap;
use pb_object::{Action, Answer, Object};
use pb_queue::TwinQueue;
use pb_report::Outcome;
use pb_stack::Stack;
use std::alloc::Global;
use std::process::Abort;
use std::sync::Wait;
use std::thread::Threads;

const CLIENTS: u32 = 16;

const REQUESTS: u64 = 1000;

const ALL: u64 = CLIENTS as u64 * REQUESTS;

// Four clients put to each register.
const OF_A_REGISTER: u64 = ALL / 4;

// Each item is below this.
const ITEMS: usize = 16 * (REQUESTS as usize + 1);

// Room for the log of all rounds, also where each serves one request.
const ROOM: u32 = 500_000;

fn device(rt: &impl Abort, alloc: Global) -> Image {
    Image::zero(alloc, ROOM).expect(rt, "memory")
}

// Notes a number that may come once.
fn note(rt: &impl Abort, seen: &mut [bool], number: u64) {
    assert!(rt; number < seen.len() as u64);
    let place = number as usize;
    assert!(rt; !seen[place]);
    seen[place] = true;
}

// Runs the script of all clients. Each client's requests are recorded, in no more rounds than requests.
fn run_crowd<R: Wait + Threads + Sync + Abort, E: Engine + Send>(
    rt: &R,
    alloc: Global,
    engine: E,
    plan: Plan,
) -> Ran<E> {
    let text = script(rt, alloc, CLIENTS, REQUESTS, plan);
    let ran = run(rt, alloc, engine, text.as_str());
    assert!(rt; ran.engine.rounds() <= ALL && ran.engine.faults() == 0);
    for client in 0..CLIENTS {
        assert!(rt; client < ran.engine.clients());
        assert!(rt; ran.engine.kept(client).number == REQUESTS);
    }
    ran
}

// Four clients put to each register: each of its versions is given once.
#[test]
fn registers(rt: HostRuntime) {
    let alloc = rt.alloc();
    let Ok(engine) = Comb::<RegMap, Image>::fresh(alloc, device(&rt, alloc), CLIENTS, 4) else {
        panic!(&rt; "the map is made");
    };
    let ran = run_crowd(&rt, alloc, engine, Plan::Registers(4));
    let mut seen = vec![in alloc; false; ALL as usize].expect(&rt, "memory");
    assert!(&rt; ran.outcomes.len() == ran.asks.len());
    for (ask, outcome) in ran.asks.iter().zip(ran.outcomes.iter()) {
        let reply = reply_of(&rt, outcome);
        assert!(&rt; reply.code == Answer::Was.code());
        let version = reply.extra.saturating_sub(1);
        let number = u64::from(ask.client % 4)
            .saturating_mul(OF_A_REGISTER)
            .saturating_add(version);
        note(&rt, &mut seen, number);
    }
    assert!(&rt; seen.iter().all(|seen| *seen));
    are_given(&rt, alloc, ran);
}

// What the log tells of a run over one combiner is what its object gives.
fn are_given<O: Object>(rt: &impl Abort, alloc: Global, ran: Ran<Comb<O, Image>>) {
    let rounds = ran.engine.rounds();
    let head = ran.engine.header();
    let device = ran.engine.close();
    let history = told_by(
        rt,
        alloc,
        (&head, &device),
        rounds,
        &ran.asks,
        &ran.outcomes,
    );
    object_gives::<O>(rt, alloc, head.size, &history);
}

// Each item that was put is taken once, since nobody takes before it put.
fn are_taken_once<E: Engine>(rt: &impl Abort, alloc: Global, ran: &Ran<E>) {
    let mut seen = vec![in alloc; false; ITEMS].expect(rt, "memory");
    assert!(rt; ran.outcomes.len() == ran.asks.len());
    for (ask, outcome) in ran.asks.iter().zip(ran.outcomes.iter()) {
        let reply = reply_of(rt, outcome);
        if ask.number % 2 == 0 {
            assert!(rt; reply.code == Answer::Item.code());
            note(rt, seen.as_mut_slice(), reply.value);
        }
    }
    assert!(rt; seen.iter().filter(|seen| **seen).count() as u64 == ALL / 2);
}

#[test]
fn stacks(rt: HostRuntime) {
    let alloc = rt.alloc();
    let Ok(engine) = Comb::<Stack, Image>::fresh(alloc, device(&rt, alloc), CLIENTS, 16) else {
        panic!(&rt; "the stack is made");
    };
    let ran = run_crowd(&rt, alloc, engine, Plan::Items(Action::Push, Action::Pop));
    are_taken_once(&rt, alloc, &ran);
    are_given(&rt, alloc, ran);
}

#[test]
fn heaps(rt: HostRuntime) {
    let alloc = rt.alloc();
    let Ok(engine) = Comb::<MinHeap, Image>::fresh(alloc, device(&rt, alloc), CLIENTS, 16) else {
        panic!(&rt; "the heap is made");
    };
    let ran = run_crowd(
        &rt,
        alloc,
        engine,
        Plan::Items(Action::Insert, Action::RemoveMin),
    );
    are_taken_once(&rt, alloc, &ran);
    are_given(&rt, alloc, ran);
}

#[test]
fn queues(rt: HostRuntime) {
    let alloc = rt.alloc();
    let Ok(engine) = TwinQueue::<Image>::fresh(alloc, device(&rt, alloc), CLIENTS, 16) else {
        panic!(&rt; "the queue is made");
    };
    let ran = run_crowd(
        &rt,
        alloc,
        engine,
        Plan::Items(Action::QueuePut, Action::QueueTake),
    );
    are_taken_once(&rt, alloc, &ran);
    let rounds = ran.engine.rounds();
    let head = ran.engine.header();
    let device = ran.engine.close();
    let history = told_by(
        &rt,
        alloc,
        (&head, &device),
        rounds,
        &ran.asks,
        &ran.outcomes,
    );
    queue_gives(&rt, alloc, head.size, &history);
}
