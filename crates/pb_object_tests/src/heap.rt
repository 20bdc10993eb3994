//! The heap: equal items, lines that are refused, a long run beside the plain function, and copies.
use crate::asked::{op, refuses, replies, reply_to, take};
use pb_heap::MinHeap;
use pb_object::{Action, Answer, Object, Reply, apply_to_heap, pass_by_lines};
use pb_pmem::Line;
use std::alloc::Global;
use std::process::Abort;

fn fresh(rt: &impl Abort, alloc: Global, size: u32) -> MinHeap {
    assert!(rt; 1 <= size && size <= 1024);
    MinHeap::fresh(alloc, size).expect(rt, "memory")
}

// The heap's rising items are these.
fn has(rt: &impl Abort, alloc: Global, heap: &MinHeap, items: &[u64]) -> bool {
    heap.rising(alloc).expect(rt, "memory").as_slice() == items
}

#[test]
fn equal_items(rt: HostRuntime) {
    let rows = [
        (
            Action::Insert,
            [u64::MAX, 0, 0],
            Reply::new(Answer::Size, 1, 0),
        ),
        (Action::Insert, [0; 3], Reply::new(Answer::Size, 2, 0)),
        (Action::Insert, [0; 3], Reply::new(Answer::Size, 3, 0)),
        (Action::Insert, [1, 0, 0], Reply::new(Answer::Full, 0, 0)),
        (Action::RemoveMin, [0; 3], Reply::new(Answer::Item, 0, 0)),
        (Action::RemoveMin, [0; 3], Reply::new(Answer::Item, 0, 0)),
        (
            Action::RemoveMin,
            [0; 3],
            Reply::new(Answer::Item, u64::MAX, 0),
        ),
        (Action::Min, [0; 3], Reply::new(Answer::Empty, 0, 0)),
    ];
    replies(&rt, &mut fresh(&rt, rt.alloc(), 3), &rows);
}

#[test]
fn refused_lines(rt: HostRuntime) {
    let mut heap = fresh(&rt, rt.alloc(), 2);
    // A count above the size, words behind the count and behind the items, and items out of order.
    refuses(&rt, &mut heap, [[3, 0, 0, 0, 0, 0, 0, 0], [0; 8]], 0);
    refuses(&rt, &mut heap, [[1, 0, 0, 0, 0, 0, 0, 1], [0; 8]], 0);
    let one = [1, 0, 0, 0, 0, 0, 0, 0];
    refuses(&rt, &mut heap, [one, [3, 9, 0, 0, 0, 0, 0, 0]], 1);
    let two = [2, 0, 0, 0, 0, 0, 0, 0];
    refuses(&rt, &mut heap, [two, [9, 3, 0, 0, 0, 0, 0, 0]], 1);
}

#[test]
fn taken_lines(rt: HostRuntime) {
    let mut heap = fresh(&rt, rt.alloc(), 2);
    let count = [2, 0, 0, 0, 0, 0, 0, 0];
    let items = [3, 9, 0, 0, 0, 0, 0, 0];
    let lines = [Line { words: count }, Line { words: items }];
    assert!(rt; take(&rt, &mut heap, &lines) == Ok(()));
    assert!(rt; has(&rt, rt.alloc(), &heap, &[3, 9]));
}

// The operation that a drawn number stands for.
fn drawn(draw: u64) -> (Action, [u64; 3]) {
    match draw % 5 {
        0 => (Action::Min, [0; 3]),
        1 | 2 => (Action::RemoveMin, [0; 3]),
        _ => (Action::Insert, [draw % 7, 0, 0]),
    }
}

// A heap after a long run, and the rising items of the plain function.
fn long_run(rt: &impl Abort, alloc: Global) -> (MinHeap, Vec<u64>) {
    let mut heap = fresh(rt, alloc, 9);
    let mut rising = Vec::new(alloc);
    let mut draw: u64 = 1;
    for _ in 0..200 {
        draw = draw.wrapping_mul(48271) % 2147483647;
        let (action, arguments) = drawn(draw);
        let op = op(action, arguments);
        let want = apply_to_heap(9, &mut rising, &op).expect(rt, "memory");
        assert!(rt; reply_to(rt, &mut heap, &op) == want, "at {op:?}");
        assert!(rt; has(rt, alloc, &heap, &rising), "at {op:?}");
    }
    (heap, rising)
}

#[test]
fn a_copy_after_a_long_run(rt: HostRuntime) {
    let (heap, rising) = long_run(&rt, rt.alloc());
    let mut copy = fresh(&rt, rt.alloc(), 9);
    assert!(rt; copy.size() == heap.size());
    copy.copy_from(&heap);
    assert!(rt; has(&rt, rt.alloc(), &copy, &rising));
}

#[test]
fn a_heap_passed_by_lines(rt: HostRuntime) {
    let (mut heap, mut rising) = long_run(&rt, rt.alloc());
    let seven = op(Action::Insert, [7, 0, 0]);
    reply_to(&rt, &mut heap, &seven);
    apply_to_heap(9, &mut rising, &seven).expect(&rt, "memory");
    let mut copy = fresh(&rt, rt.alloc(), 9);
    let mut lines = [Line::default(); 3];
    assert!(rt; heap.lines() == 3 && copy.size() == heap.size());
    assert!(rt; pass_by_lines(&heap, &mut copy, &mut lines) == Ok(()));
    assert!(rt; has(&rt, rt.alloc(), &copy, &rising));
}
