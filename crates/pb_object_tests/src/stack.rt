//! The stack: one of one item, lines that are refused, a long run beside the plain function, and copies.
use crate::asked::{op, refuses, replies, reply_to};
use pb_object::{Action, Answer, Object, Reply, apply_to_stack, pass_by_lines};
use pb_pmem::Line;
use pb_stack::Stack;
use std::alloc::Global;
use std::process::Abort;

fn fresh(rt: &impl Abort, alloc: Global, size: u32) -> Stack {
    assert!(rt; 1 <= size && size <= 1024);
    Stack::fresh(alloc, size).expect(rt, "memory")
}

#[test]
fn a_stack_of_one(rt: HostRuntime) {
    let rows = [
        (Action::Push, [5, 0, 0], Reply::new(Answer::Depth, 1, 0)),
        (Action::Push, [6, 0, 0], Reply::new(Answer::Full, 0, 0)),
        (Action::Pop, [0; 3], Reply::new(Answer::Item, 5, 0)),
        (Action::Pop, [0; 3], Reply::new(Answer::Empty, 0, 0)),
    ];
    replies(&rt, &mut fresh(&rt, rt.alloc(), 1), &rows);
}

#[test]
fn refused_lines(rt: HostRuntime) {
    let mut stack = fresh(&rt, rt.alloc(), 2);
    // A count above the size, and words behind the count and behind the items.
    refuses(&rt, &mut stack, [[3, 0, 0, 0, 0, 0, 0, 0], [0; 8]], 0);
    refuses(&rt, &mut stack, [[1, 0, 0, 0, 0, 0, 0, 1], [0; 8]], 0);
    let one = [1, 0, 0, 0, 0, 0, 0, 0];
    refuses(&rt, &mut stack, [one, [9, 3, 0, 0, 0, 0, 0, 0]], 1);
}

// The operation that a drawn number stands for.
fn drawn(draw: u64) -> (Action, [u64; 3]) {
    match draw % 5 {
        0 => (Action::Top, [0; 3]),
        1 | 2 => (Action::Pop, [0; 3]),
        _ => (Action::Push, [draw, 0, 0]),
    }
}

// A stack after a long run, and the items of the plain function.
fn long_run(rt: &impl Abort, alloc: Global) -> (Stack, Vec<u64>) {
    let mut stack = fresh(rt, alloc, 9);
    let mut items = Vec::new(alloc);
    let mut draw: u64 = 1;
    for _ in 0..200 {
        draw = draw.wrapping_mul(48271) % 2147483647;
        let (action, arguments) = drawn(draw);
        let op = op(action, arguments);
        let want = apply_to_stack(9, &mut items, &op).expect(rt, "memory");
        assert!(rt; reply_to(rt, &mut stack, &op) == want, "at {op:?}");
    }
    (stack, items)
}

// The stack's items are these.
fn has(stack: &Stack, items: &[u64]) -> bool {
    for place in 0..stack.depth() {
        if items.get(place as usize) != Some(&stack.item(place)) {
            return false;
        }
    }
    stack.depth() as usize == items.len()
}

#[test]
fn a_copy_after_a_long_run(rt: HostRuntime) {
    let (stack, items) = long_run(&rt, rt.alloc());
    assert!(rt; has(&stack, &items));
    let mut copy = fresh(&rt, rt.alloc(), 9);
    assert!(rt; copy.size() == stack.size());
    copy.copy_from(&stack);
    assert!(rt; has(&copy, &items));
}

#[test]
fn a_stack_passed_by_lines(rt: HostRuntime) {
    let (mut stack, mut items) = long_run(&rt, rt.alloc());
    reply_to(&rt, &mut stack, &op(Action::Push, [7, 0, 0]));
    items.push(7).expect(&rt, "memory");
    let mut copy = fresh(&rt, rt.alloc(), 9);
    let mut lines = [Line::default(); 3];
    assert!(rt; stack.lines() == 3 && copy.size() == stack.size());
    assert!(rt; pass_by_lines(&stack, &mut copy, &mut lines) == Ok(()));
    assert!(rt; has(&copy, &items));
}
