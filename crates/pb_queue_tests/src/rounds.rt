//! Rounds of both sides.
use crate::engine::{made, one_place, recorded, reopened, serve_step, stands_at, two_places};
use pb_engine::Engine;

#[test]
fn a_queue_of_two(rt: HostRuntime) {
    let mut queue = made(&rt, rt.alloc(), 512, 2, 2);
    for step in &two_places() {
        serve_step(&rt, &mut queue, step);
    }
    assert_eq!(rt; (queue.round_of(0), queue.round_of(1)), (4, 2));
    assert_eq!(rt; queue.rounds(), 6);
    assert!(rt; stands_at(&queue, 2, 3));
    assert!(rt; queue.head() <= 2 && 2 < queue.tail());
    assert_eq!(rt; queue.item(2), 4);
}

#[test]
fn a_queue_of_one_is_opened_again(rt: HostRuntime) {
    let mut queue = made(&rt, rt.alloc(), 1024, 2, 1);
    for step in &one_place() {
        serve_step(&rt, &mut queue, step);
    }
    let again = reopened(&rt, rt.alloc(), queue.close());
    assert!(rt; stands_at(&again, 3, 3));
    assert_eq!(rt; recorded(&rt, &again, 0), 8);
}
