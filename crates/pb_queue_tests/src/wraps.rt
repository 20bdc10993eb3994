//! A queue of 1,024 that is filled and emptied by sixteen clients, until its places were used twice.
use crate::engine::{made, reopened, stands_at};
use crate::shared::{Row, serve_all};
use pb_image::Image;
use pb_queue::TwinQueue;
use std::process::Abort;

// The item that is put at a position.
fn item(position: u64) -> u64 {
    position.wrapping_mul(3).wrapping_add(7)
}

// A put of each client, at the positions from this one on.
fn puts(first: u64) -> [Row; 16] {
    let mut rows: [Row; 16] = [(0, None, [0; 3]); 16];
    for client in 0..16 {
        let position = first.wrapping_add(client as u64);
        rows[client] = (client as u32, Some(item(position)), [11, position, 0]);
    }
    rows
}

// A take of each client, of the items at the positions from this one on.
fn takes(first: u64) -> [Row; 16] {
    let mut rows: [Row; 16] = [(0, None, [0; 3]); 16];
    for client in 0..16 {
        let position = first.wrapping_add(client as u64);
        rows[client] = (client as u32, None, [8, item(position), position]);
    }
    rows
}

// So many rounds of puts, from this position on.
fn fill(rt: &impl Abort, queue: &mut TwinQueue<Image>, first: u64, rounds: u64) {
    for round in 0..rounds {
        let from = first.wrapping_add(round.wrapping_mul(16));
        serve_all(rt, queue, &puts(from));
        assert!(rt; queue.tail() == from.wrapping_add(16));
    }
}

// So many rounds of takes, from this position on.
fn drain(rt: &impl Abort, queue: &mut TwinQueue<Image>, first: u64, rounds: u64) {
    for round in 0..rounds {
        let from = first.wrapping_add(round.wrapping_mul(16));
        serve_all(rt, queue, &takes(from));
        assert!(rt; queue.head() == from.wrapping_add(16));
    }
}

// The items wait at the positions of this range.
fn wait(rt: &impl Abort, queue: &TwinQueue<Image>, head: u64, tail: u64) {
    assert!(rt; stands_at(queue, head, tail));
    for position in head..tail {
        assert!(rt; queue.head() <= position && position < queue.tail());
        assert!(rt; queue.item(position) == item(position));
    }
}

// All places are in use, and a quarter of them a second time.
fn wrapped(rt: &impl Abort, queue: &mut TwinQueue<Image>) {
    serve_all(rt, queue, &[(3, None, [9, 0, 0])]);
    fill(rt, queue, 0, 64);
    serve_all(
        rt,
        queue,
        &[(0, Some(1), [7, 0, 0]), (15, Some(2), [7, 0, 0])],
    );
    drain(rt, queue, 0, 16);
    fill(rt, queue, 1024, 16);
    serve_all(rt, queue, &[(7, Some(3), [7, 0, 0])]);
    wait(rt, queue, 256, 1280);
}

// All are taken, and all places are used again.
fn refilled(rt: &impl Abort, queue: &mut TwinQueue<Image>) {
    wait(rt, queue, 256, 1280);
    drain(rt, queue, 256, 64);
    serve_all(rt, queue, &[(2, None, [9, 0, 0]), (9, None, [9, 0, 0])]);
    fill(rt, queue, 1280, 64);
    wait(rt, queue, 1280, 2304);
}

#[test]
fn each_place_is_used_twice(rt: HostRuntime) {
    let mut queue = made(&rt, rt.alloc(), 65536, 16, 1024);
    wrapped(&rt, &mut queue);
    let mut again = reopened(&rt, rt.alloc(), queue.close());
    refilled(&rt, &mut again);
    let mut last = reopened(&rt, rt.alloc(), again.close());
    wait(&rt, &last, 1280, 2304);
    drain(&rt, &mut last, 1280, 64);
    assert!(rt; stands_at(&last, 2304, 2304));
}
