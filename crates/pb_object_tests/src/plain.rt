//! The plain functions, by the replies of worked runs.
use crate::asked::op;
use pb_object::{
    Action, Answer, PlainQueue, Register, Reply, apply_to_heap, apply_to_map, apply_to_stack,
};

#[test]
fn map_replies(rt: HostRuntime) {
    let mut registers = [Register::default(); 4];
    for (action, arguments, reply) in [
        (Action::Cas, [0, 1, 9], Reply::new(Answer::Stale, 0, 0)),
        (Action::Get, [4, 0, 0], Reply::new(Answer::NoKey, 0, 0)),
        (Action::Put, [3, 77, 0], Reply::new(Answer::Was, 0, 1)),
        (Action::Get, [3, 0, 0], Reply::new(Answer::Is, 77, 1)),
        (Action::Cas, [3, 1, 5], Reply::new(Answer::Was, 77, 2)),
    ] {
        let op = op(action, arguments);
        assert!(rt; apply_to_map(&mut registers, &op) == reply, "at {op:?}");
    }
}

#[test]
fn stack_replies(rt: HostRuntime) {
    let mut items = Vec::new(rt.alloc());
    for (action, item, reply) in [
        (Action::Push, 5, Reply::new(Answer::Depth, 1, 0)),
        (Action::Push, 6, Reply::new(Answer::Full, 0, 0)),
        (Action::Top, 0, Reply::new(Answer::Item, 5, 0)),
        (Action::Pop, 0, Reply::new(Answer::Item, 5, 0)),
        (Action::Pop, 0, Reply::new(Answer::Empty, 0, 0)),
    ] {
        let op = op(action, [item, 0, 0]);
        assert!(rt;
            apply_to_stack(1, &mut items, &op) == Ok(reply),
            "at {op:?}"
        );
    }
}

#[test]
fn heap_replies(rt: HostRuntime) {
    let mut rising = Vec::new(rt.alloc());
    for (action, item, reply) in [
        (Action::Insert, u64::MAX, Reply::new(Answer::Size, 1, 0)),
        (Action::Insert, 0, Reply::new(Answer::Size, 2, 0)),
        (Action::Insert, 0, Reply::new(Answer::Size, 3, 0)),
        (Action::RemoveMin, 0, Reply::new(Answer::Item, 0, 0)),
        (Action::RemoveMin, 0, Reply::new(Answer::Item, 0, 0)),
        (Action::Min, 0, Reply::new(Answer::Item, u64::MAX, 0)),
    ] {
        let op = op(action, [item, 0, 0]);
        assert!(rt;
            apply_to_heap(4, &mut rising, &op) == Ok(reply),
            "at {op:?}"
        );
    }
}

#[test]
fn queue_replies(rt: HostRuntime) {
    let mut queue = PlainQueue::new(rt.alloc());
    for (action, item, reply) in [
        (Action::QueuePut, 1, Reply::new(Answer::At, 0, 0)),
        (Action::QueuePut, 2, Reply::new(Answer::At, 1, 0)),
        (Action::QueuePut, 3, Reply::new(Answer::Full, 0, 0)),
        (Action::QueueTake, 0, Reply::new(Answer::Item, 1, 0)),
        (Action::QueuePut, 4, Reply::new(Answer::At, 2, 0)),
        (Action::QueueTake, 0, Reply::new(Answer::Item, 2, 1)),
    ] {
        let op = op(action, [item, 0, 0]);
        assert!(rt; queue.apply(2, &op) == Ok(reply), "at {op:?}");
    }
}
