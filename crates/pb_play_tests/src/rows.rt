//! Schedules with the answers that they are to have.
ghost use Rattle.std.specs.Prelude.{◌<◌};
ghost use Rattle.pb_pmem.specs.declared.line.TheConstants.{LINES};

use crate::played::Played;
use pb_events::Stepped;
use pb_object::{Ask, Kind, Op, Reply};
use pb_pmem::Line;
use std::process::Abort;

// A put and a get of a map; a crash before the get's index word is waited for, which leaves it.
const CRASHES: &str =
    "ask 0 1 put 3 77\nstep 0 26\nask 0 2 get 3\nstep 0 20\ncrash 3 1\nopen 2\ncrash 0 0\nopen 4\ncrash 0 1\nopen 5\n";

const ONE_CRASH: &str =
    "ask 0 1 put 3 77\nstep 0 26\nask 0 2 get 3\nstep 0 20\ncrash 3 1\nopen 5\n";

// What the put is answered.
const PUT: Stepped = Stepped::Done {
    ask: Ask {
        client: 0,
        number: 1,
        op: Op {
            code: 2,
            a: 3,
            b: 77,
            c: 0,
        },
    },
    reply: Reply {
        code: 2,
        value: 0,
        extra: 1,
    },
};

// Whether a line of the device has these words.
fn holds(played: &Played, line: u32, words: [u64; 8]) -> bool
    requires { line < LINES }
{
    played.line(line) == Line { words }
}

// The index words count two rounds; the get and the put stand in their slots, and the register has what was put.
fn check(rt: &impl Abort, played: &Played) {
    assert!(rt; holds(played, 1, [2, 0, 0, 0, 0, 0, 0, 0]));
    assert!(rt; holds(played, 2, [0, 0, 0, 0, 0, 0, 0, 0]));
    assert!(rt; holds(played, 10, [2, 1, 3, 0, 0, 1, 77, 1]));
    assert!(rt; holds(played, 11, [1, 2, 3, 77, 0, 2, 0, 1]));
    assert!(rt; holds(played, 18, [0, 0, 0, 0, 0, 0, 77, 1]));
}

#[test]
fn crashes_and_reopenings(rt: HostRuntime) {
    for schedule in [CRASHES, ONE_CRASH] {
        let mut played = Played::fresh(&rt, rt.alloc(), Kind::Map, 1, 4);
        let answers = played.play(&rt, rt.alloc(), Kind::Map, 1, schedule);
        assert!(rt; answers.as_slice() == [PUT].as_slice(), "{schedule}");
        check(&rt, &played);
    }
}
