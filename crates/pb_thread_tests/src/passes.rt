//! Two passes on threads of their own, of which one is held in the device.
ghost use Rattle.std.specs.Prelude.{◌≡◌, true, All};
ghost use Rattle.pb_shared.specs.Passes.{IsOf};

use crate::flags::Hall;
use crate::held_device::HeldDevice;
use crate::maps::{held, map};
use pb_comb::Comb;
use pb_map::RegMap;
use pb_object::{Action, Answer, LAST_NUMBER, Op, Reply, is_operation};
use pb_shared::{Attempt, Pass, Shared};
use std::alloc::Global;
use std::process::Abort;
use std::sync::Arc;
use std::thread::{self, Threads};

/// A map on a device that is held.
type HeldMap = Comb<RegMap, HeldDevice>;

// A client's pass, and what its try came to.
#[derive(Drop)]
struct Client {
    pass: Pass<HeldMap>,
    answer: Option<Attempt>,
}

fn put(key: u64, value: u64) -> Op {
    Op {
        code: Action::Put.code(),
        a: key,
        b: value,
        c: 0,
    }
}

// The map, shared, with a pass for each client.
fn shared(rt: &impl Abort, alloc: Global, engine: HeldMap) -> (Shared<HeldMap>, Vec<Pass<HeldMap>>)
    requires { engine.sure ≡ true }
    ensures { All (IsOf result.0) result.1.items }
{
    match Shared::open(alloc, engine) {
        Ok(opened) => opened,
        Err(_) => panic!(rt; "the map is shared"),
    }
}

// Tries once, where a request is announced.
fn attempt(rt: &impl Abort, object: &Shared<HeldMap>, pass: &mut Pass<HeldMap>) -> Attempt
    requires { IsOf object.now pass.old }
    ensures { IsOf object.now pass.new }
{
    assert!(rt; pass.pending().is_some());
    object.attempt(pass)
}

// Announces a put to the client's own register.
fn announce(rt: &impl Abort, object: &Shared<HeldMap>, pass: &mut Pass<HeldMap>)
    requires { IsOf object.now pass.old }
    ensures { IsOf object.now pass.new }
{
    let key = u64::from(pass.client());
    let op = put(key, 5);
    assert!(rt; pass.pending().is_none());
    assert!(rt; is_operation(object.kind(), &op));
    assert!(rt; pass.last().number < LAST_NUMBER);
    object.announce(pass, &op);
}

// Client 0 tries; the other one tries while client 0 is inside, and says then that it was busy.
fn try_once(rt: &impl Abort, object: &Shared<HeldMap>, client: &mut Client, hall: &Hall)
    requires { IsOf object.now client.old.pass }
    ensures { IsOf object.now client.new.pass }
{
    let number = client.pass.client();
    if number == 1 {
        hall.inside.wait();
    }
    client.answer = Some(attempt(rt, object, &mut client.pass));
    hall.note_busy(number);
}

// Lets each client try, on a thread of its own.
fn try_all<R: Threads + Sync + Abort>(
    rt: &R,
    object: &Shared<HeldMap>,
    clients: &mut Vec<Client>,
    hall: &Hall,
)
    requires { All (λ client. IsOf object.now client.pass) clients.old.items }
    ensures { All (λ client. IsOf object.now client.pass) clients.new.items }
{
    thread::for_each_mut(
        rt,
        clients.as_mut_slice(),
        2,
        &|_, client|
            requires { IsOf object.now client.now.pass }
            ensures { IsOf object.entry.now client.exit.now.pass }
        { try_once(rt, object, client, hall) },
    );
}

// A client with its announced request.
fn announced(rt: &impl Abort, object: &Shared<HeldMap>, passes: &mut Vec<Pass<HeldMap>>) -> Client
    requires { All (IsOf object.now) passes.old.items }
    ensures rest { All (IsOf object.now) passes.new.items }
    ensures of { IsOf object.now result.pass }
{
    match passes.pop() {
        Some(mut pass) => {
            announce(rt, object, &mut pass);
            Client { pass, answer: None }
        }
        None => panic!(rt; "a pass"),
    }
}

// Both clients, client 1 first.
fn both(
    rt: &impl Abort,
    alloc: Global,
    object: &Shared<HeldMap>,
    mut passes: Vec<Pass<HeldMap>>,
) -> Vec<Client>
    requires { All (IsOf object.now) passes.items }
    ensures { All (λ client. IsOf object.now client.pass) result.items }
{
    let mut clients = Vec::new(alloc);
    let second = announced(rt, object, &mut passes);
    clients.push(second).expect(rt, "memory");
    let first = announced(rt, object, &mut passes);
    clients.push(first).expect(rt, "memory");
    clients
}

// The last one.
fn last_of(rt: &impl Abort, object: &Shared<HeldMap>, clients: &mut Vec<Client>) -> Client
    requires { All (λ client. IsOf object.now client.pass) clients.old.items }
    ensures rest { All (λ client. IsOf object.now client.pass) clients.new.items }
    ensures of { IsOf object.now result.pass }
{
    let _ = object;
    match clients.pop() {
        Some(client) => client,
        None => panic!(rt; "a client"),
    }
}

#[test]
fn busy_while_another_is_inside(rt: HostRuntime) {
    let alloc = rt.alloc();
    let hall = Arc::new(alloc, Hall::new()).expect(&rt, "memory");
    let engine = map(&rt, alloc, held(&rt, alloc, &hall, 1), 2);
    let (object, passes) = shared(&rt, alloc, engine);
    let mut clients = both(&rt, alloc, &object, passes);
    try_all(&rt, &object, &mut clients, &hall);
    let first = last_of(&rt, &object, &mut clients);
    let mut second = last_of(&rt, &object, &mut clients);
    let was = Reply::new(Answer::Was, 0, 1);
    assert!(&rt; first.pass.client() == 0 && first.answer == Some(Attempt::Done(was)));
    assert!(&rt; second.answer == Some(Attempt::Busy { from: 1, to: 1 }));
    let answer = attempt(&rt, &object, &mut second.pass);
    assert!(&rt; answer == Attempt::Done(was));
    assert!(&rt; hall.inside.was_met());
}
