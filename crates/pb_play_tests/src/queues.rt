//! Schedules by chance of a queue: each item is put once and taken once, in its place, and nothing that was answered is lost.
ghost use Rattle.std.specs.Prelude.{◌<◌};

use crate::chance::{CLIENTS, Chance};
use crate::played::Played;
use crate::seen::{Seen, is_crash};
use pb_events::{Event, Stepped};
use pb_object::{Ask, Kind, Reply};
use std::alloc::Global;
use std::process::Abort;

/// How many items may wait.
const SIZE: u64 = 4;

// The line at which a side's record in use begins, in a region of a queue for three clients with four places.
fn record(played: &Played, side: u32) -> u32
    requires { side < 2 }
    ensures { result < 110 }
{
    let rounds = played.line(1 + side).words[0];
    let first = 27 + 52 * side;
    if rounds % 2 == 0 { first } else { first + 26 }
}

// The number of a client's last request that was recorded on a side.
fn recorded_on(played: &Played, side: u32, client: u32) -> u64
    requires side { side < 2 }
    requires client { client < 3 }
{
    played.line(record(played, side) + 1 + 8 * client).words[0]
}

// A client's last recorded number.
fn recorded(played: &Played, client: u32) -> u64
    requires { client < 3 }
{
    let put = recorded_on(played, 0, client);
    let taken = recorded_on(played, 1, client);
    if put < taken { taken } else { put }
}

// How many items a side moved: put, or taken.
fn moved(played: &Played, side: u32) -> u64
    requires { side < 2 }
{
    played.line(record(played, side) + 25).words[0]
}

// What is known: the number of each client's last answered request, and the one that it asks with next; what was put at each position and
// taken from it, as far as answers tell; one more than the last position of either; and what was seen.
#[derive(Drop)]
struct Known {
    answered: [u64; 3],
    next: [u64; 3],
    put: [u64; 64],
    taken: [u64; 64],
    moved: [u64; 2],
    seen: Seen,
}

impl Known {
    fn new() -> Self {
        Known {
            answered: [0; 3],
            next: [1; 3],
            put: [0; 64],
            taken: [0; 64],
            moved: [0; 2],
            seen: Seen::default(),
        }
    }

    // An item was put at a position: no other one was, and what is taken from it is this one.
    fn note_put(&mut self, rt: &impl Abort, position: u64, item: u64) {
        assert!(rt; position < 64);
        let place = position as usize;
        assert!(rt; self.put[place] == 0, "put twice at {position}");
        assert!(rt; self.taken[place] == 0 || self.taken[place] == item);
        self.put[place] = item;
        if self.moved[0] <= position {
            self.moved[0] = position + 1;
        }
    }

    // One was taken from a position: no other one was, and it is the one that was put there.
    fn note_taken(&mut self, rt: &impl Abort, position: u64, item: u64) {
        assert!(rt; position < 64);
        let place = position as usize;
        assert!(rt; self.taken[place] == 0, "taken twice from {position}");
        assert!(rt; self.put[place] == 0 || self.put[place] == item);
        self.taken[place] = item;
        if self.moved[1] <= position {
            self.moved[1] = position + 1;
        }
    }

    // A request was answered.
    fn answer(&mut self, rt: &impl Abort, ask: &Ask, reply: &Reply) {
        let client = ask.client as usize;
        assert!(rt; client < 3);
        assert!(rt; ask.number > self.answered[client], "number {}", ask.number);
        self.answered[client] = ask.number;
        self.next[client] = ask.number.saturating_add(1);
        match reply.code {
            11 => self.note_put(rt, reply.value, ask.op.a),
            8 => self.note_taken(rt, reply.extra, reply.value),
            _ => {}
        }
        self.seen.answer();
    }

    // What is on the device is what the first so many rounds led to, all answered ones among them: no number and no item that was answered
    // is lost, no more was moved than was asked for, and as many wait as may.
    fn check(&self, rt: &impl Abort, played: &Played) {
        let put = moved(played, 0);
        let taken = moved(played, 1);
        let mut sum = 0u64;
        for client in 0..CLIENTS {
            let number = recorded(played, client);
            assert!(rt; number >= self.answered[client as usize], "client {client}");
            sum = sum.saturating_add(number);
        }
        assert!(rt; put >= self.moved[0], "put {put}");
        assert!(rt; taken >= self.moved[1], "taken {taken}");
        assert!(rt; taken <= put);
        assert!(rt; put <= taken.saturating_add(SIZE));
        assert!(rt; put.saturating_add(taken) <= sum);
    }

    // A crash left what is on the device alone.
    fn reopen(&mut self, played: &Played) {
        self.seen.crash();
        for client in 0..CLIENTS {
            self.next[client as usize] = recorded(played, client).saturating_add(1);
        }
    }

    // An event was answered so.
    fn note(&mut self, rt: &impl Abort, played: &Played, event: &Event, answer: &Stepped) {
        if let Stepped::Done { ask, reply } = *answer {
            self.answer(rt, &ask, &reply);
        }
        if is_crash(event) && *answer == Stepped::Went {
            self.check(rt, played);
            self.reopen(played);
        }
    }
}

// Plays a thousand events by chance, and answers what was seen.
fn play(rt: &impl Abort, alloc: Global, seed: u32) -> Seen {
    let mut chance = Chance::new(seed);
    let mut played = Played::fresh(rt, alloc, Kind::Queue, CLIENTS, 4);
    let mut known = Known::new();
    for _ in 0..1000 {
        let event = chance.event(Kind::Queue, &known.next);
        if played.spare() > 0 {
            let answer = played.make(rt, &event);
            known.note(rt, &played, &event, &answer);
        }
    }
    known.check(rt, &played);
    known.seen
}

#[test]
fn by_chance(rt: HostRuntime) {
    let mut seen = Seen::default();
    for seed in 1..301 {
        seen.add(&play(&rt, rt.alloc(), seed));
    }
    assert!(rt; seen.answered > 1000, "answered {}", seen.answered);
    assert!(rt; seen.crashes > 300, "crashes {}", seen.crashes);
    assert!(rt;
        seen.answered_after > 300,
        "after a crash {}",
        seen.answered_after
    );
}
