//! Runs whose workers have to be under way at the same time.
use crate::flags::{Flag, Hall};
use crate::gates::{HallGate, MeetingGate};
use crate::maps::{comes_to, held, map};
use pb_engine::Engine;
use pb_image::Image;
use std::sync::Arc;

const TWO: &str = "0 1 put 0 5\n1 1 put 1 6\n";

const TWO_LINES: &str = "0 1 new was 0 1\n1 1 new was 0 1\n";

// Each of two clients is at the gate while the other one is.
#[test]
fn two_workers_meet(rt: HostRuntime) {
    let alloc = rt.alloc();
    let device = Image::zero(alloc, 4096).expect(&rt, "memory");
    let gate = MeetingGate {
        here: [Flag::new(), Flag::new()],
    };
    comes_to(
        &rt,
        alloc,
        map(&rt, alloc, device, 2),
        TWO,
        &gate,
        TWO_LINES,
    );
    for flag in &gate.here {
        assert!(&rt; flag.was_met());
    }
}

const THREE: &str = "0 1 put 0 5\n1 1 put 1 6\n2 1 put 2 7\n";

const THREE_LINES: &str = "0 1 new was 0 1\n1 1 new was 0 1\n2 1 new was 0 1\n";

// While client 0's round waits for the device, the two others announce, and one round serves both.
#[test]
fn one_round_serves_those_who_waited(rt: HostRuntime) {
    let alloc = rt.alloc();
    let hall = Arc::new(alloc, Hall::new()).expect(&rt, "memory");
    let gate = HallGate { hall: &*hall };
    let engine = map(&rt, alloc, held(&rt, alloc, &hall, 2), 3);
    let engine = comes_to(&rt, alloc, engine, THREE, &gate, THREE_LINES);
    assert!(&rt; engine.rounds() == 2);
    assert!(&rt; hall.inside.was_met());
    for flag in &hall.busy {
        assert!(&rt; flag.was_met());
    }
}
