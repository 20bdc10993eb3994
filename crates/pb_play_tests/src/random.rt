//! Schedules by chance: whatever happens, each request is applied once, and none that was answered is lost.
ghost use Rattle.std.specs.Prelude.{◌<◌};

use crate::chance::{CLIENTS, Chance};
use crate::played::Played;
use crate::seen::{Seen, is_crash};
use pb_events::{Event, Stepped};
use pb_object::{Ask, Kind};
use std::alloc::Global;
use std::process::Abort;

// The line at which the record in use begins, in a region of a map for three clients with four registers.
fn record(played: &Played) -> u32
    ensures { result < 100 }
{
    let rounds = played.line(1).words[0];
    if rounds % 2 == 0 { 13 } else { 39 }
}

// A client's last recorded number.
fn recorded(played: &Played, client: u32) -> u64
    requires { client < 3 }
{
    played.line(record(played) + 1 + 8 * client).words[0]
}

// The version of register 0.
fn version(played: &Played) -> u64 {
    played.line(record(played) + 25).words[1]
}

// What is known of the clients: the number of each one's last answered request, and the one that it asks with next; and what was seen.
#[derive(Drop)]
struct Known {
    answered: [u64; 3],
    next: [u64; 3],
    seen: Seen,
}

impl Known {
    // A request was answered.
    fn answer(&mut self, rt: &impl Abort, ask: &Ask) {
        let client = ask.client as usize;
        assert!(rt; client < 3);
        self.answered[client] = ask.number;
        self.next[client] = ask.number.saturating_add(1);
        self.seen.answer();
    }

    // All is on the device as it has to be: no request that was answered is lost, and each recorded one was applied once.
    fn check(&self, rt: &impl Abort, played: &Played) {
        let mut sum = 0u64;
        for client in 0..CLIENTS {
            let number = recorded(played, client);
            assert!(rt; number >= self.answered[client as usize], "client {client}");
            sum = sum.saturating_add(number);
        }
        assert!(rt; version(played) == sum, "version {sum}");
    }

    // A crash left what is on the device alone.
    fn reopen(&mut self, played: &Played) {
        self.seen.crash();
        for client in 0..CLIENTS {
            self.next[client as usize] = recorded(played, client).saturating_add(1);
        }
    }

    // An event was answered so.
    fn note(&mut self, rt: &impl Abort, played: &Played, event: &Event, answer: &Stepped) {
        if let Stepped::Done { ask, .. } = *answer {
            self.answer(rt, &ask);
        }
        if is_crash(event) && *answer == Stepped::Went {
            self.check(rt, played);
            self.reopen(played);
        }
    }
}

// Plays a thousand events by chance, and answers what was seen.
fn play(rt: &impl Abort, alloc: Global, seed: u32) -> Seen {
    let mut chance = Chance::new(seed);
    let mut played = Played::fresh(rt, alloc, Kind::Map, CLIENTS, 4);
    let mut known = Known {
        answered: [0; 3],
        next: [1; 3],
        seen: Seen::default(),
    };
    for _ in 0..1000 {
        let event = chance.event(Kind::Map, &known.next);
        if played.spare() > 0 {
            let answer = played.make(rt, &event);
            known.note(rt, &played, &event, &answer);
        }
    }
    known.check(rt, &played);
    known.seen
}

#[test]
fn by_chance(rt: HostRuntime) {
    let mut seen = Seen::default();
    for seed in 1..1001 {
        seen.add(&play(&rt, rt.alloc(), seed));
    }
    assert!(rt; seen.answered > 1000, "answered {}", seen.answered);
    assert!(rt; seen.crashes > 1000, "crashes {}", seen.crashes);
    assert!(rt;
        seen.answered_after > 500,
        "after a crash {}",
        seen.answered_after
    );
}
