use crate::items::Items;
use pb_object::{Action, Answer, LAST_POSITION, Op, PlainQueue, Reply};
use std::alloc::Global;
use std::process::Abort;
use std::test::Fail;

fn op(action: Action, a: u64) -> Op {
    Op {
        code: action.code(),
        a,
        b: 0,
        c: 0,
    }
}

// Applies an operation, and knows it for sure.
fn reply_to(rt: &impl Abort, items: &mut Items, op: &Op) -> Reply {
    assert!(rt; items.next_head() == items.head());
    let reply = items.apply(op);
    items.confirm();
    reply
}

#[test]
fn a_queue_of_two(rt: HostRuntime) -> Result<(), Fail> {
    let mut items = Items::fresh(rt.alloc(), 2, 0)?;
    for (op, reply) in [
        (op(Action::QueuePut, 1), Reply::new(Answer::At, 0, 0)),
        (op(Action::QueuePut, 2), Reply::new(Answer::At, 1, 0)),
        (op(Action::QueuePut, 3), Reply::new(Answer::Full, 0, 0)),
        (op(Action::QueueTake, 0), Reply::new(Answer::Item, 1, 0)),
        (op(Action::QueuePut, 4), Reply::new(Answer::At, 2, 0)),
        (op(Action::QueueTake, 0), Reply::new(Answer::Item, 2, 1)),
    ] {
        assert_eq!(rt; reply_to(&rt, &mut items, &op), reply, "at {op:?}");
    }
    assert_eq!(rt; (items.head(), items.tail()), (2, 3));
    Ok(())
}

#[test]
fn positions_end(rt: HostRuntime) -> Result<(), Fail> {
    let mut items = Items::fresh(rt.alloc(), 2, LAST_POSITION - 1)?;
    for (op, reply) in [
        (
            op(Action::QueuePut, 7),
            Reply::new(Answer::At, LAST_POSITION - 1, 0),
        ),
        (op(Action::QueuePut, 8), Reply::new(Answer::Worn, 0, 0)),
        (
            op(Action::QueueTake, 0),
            Reply::new(Answer::Item, 7, LAST_POSITION - 1),
        ),
        (op(Action::QueueTake, 0), Reply::new(Answer::Empty, 0, 0)),
    ] {
        assert_eq!(rt; reply_to(&rt, &mut items, &op), reply, "at {op:?}");
    }
    Ok(())
}

#[test]
fn takes_are_taken_back(rt: HostRuntime) -> Result<(), Fail> {
    let mut items = Items::fresh(rt.alloc(), 1, 0)?;
    let _ = reply_to(&rt, &mut items, &op(Action::QueuePut, 5));
    let take = op(Action::QueueTake, 0);
    for _ in 0..2 {
        assert!(rt; items.next_head() == items.head());
        assert_eq!(rt; items.apply(&take), Reply::new(Answer::Item, 5, 0));
        items.revert();
    }
    Ok(())
}

// Puts and takes by turns, so that the ring is gone round several times.
fn runs_like_the_model(rt: &impl Abort, alloc: Global, size: u32) -> Result<(), Fail> {
    assert!(rt; size >= 1 && size <= 1024);
    let mut items = Items::fresh(alloc, size, 0)?;
    let mut model = PlainQueue::new(alloc);
    let mut draw: u64 = 1;
    for _ in 0..2100 {
        draw = draw.wrapping_mul(48271) % 2147483647;
        let op = if draw % 5 < 3 {
            op(Action::QueuePut, draw)
        } else {
            op(Action::QueueTake, 0)
        };
        let reply = model.apply(size, &op)?;
        assert_eq!(rt; reply_to(rt, &mut items, &op), reply, "at {op:?}");
    }
    Ok(())
}

#[test]
fn rings_of_some_sizes(rt: HostRuntime) -> Result<(), Fail> {
    runs_like_the_model(&rt, rt.alloc(), 1)?;
    runs_like_the_model(&rt, rt.alloc(), 2)?;
    runs_like_the_model(&rt, rt.alloc(), 1024)
}
