//! Requests of a queue's engine over a device in memory.
use arrayvec::ArrayVec;
use pb_engine::Engine;
use pb_image::Image;
use pb_object::{Action, Answer, Ask, Kind, LAST_NUMBER, Op, Reply, is_operation};
use pb_pair::{Pair, Why};
use pb_pmem::DeviceFault;
use pb_queue::TwinQueue;
use std::alloc::Global;
use std::process::Abort;

/// A request with the reply that is expected, and where the queue's head and tail are then.
#[derive(Clone, Copy)]
pub struct Step {
    pub op: Op,
    pub reply: Reply,
    pub head: u64,
    pub tail: u64,
}

fn put(item: u64, answer: Answer, position: u64, head: u64, tail: u64) -> Step {
    Step {
        op: Op {
            code: Action::QueuePut.code(),
            a: item,
            b: 0,
            c: 0,
        },
        reply: Reply::new(answer, position, 0),
        head,
        tail,
    }
}

fn take(answer: Answer, item: u64, position: u64, head: u64, tail: u64) -> Step {
    Step {
        op: Op {
            code: Action::QueueTake.code(),
            a: 0,
            b: 0,
            c: 0,
        },
        reply: Reply::new(answer, item, position),
        head,
        tail,
    }
}

/// Puts and takes by turns, of a queue of two.
pub fn two_places() -> [Step; 6] {
    [
        put(1, Answer::At, 0, 0, 1),
        put(2, Answer::At, 1, 0, 2),
        put(3, Answer::Full, 0, 0, 2),
        take(Answer::Item, 1, 0, 1, 2),
        put(4, Answer::At, 2, 1, 3),
        take(Answer::Item, 2, 1, 2, 3),
    ]
}

/// The same of a queue of one, whose place is used again by each item.
pub fn one_place() -> [Step; 8] {
    [
        take(Answer::Empty, 0, 0, 0, 0),
        put(5, Answer::At, 0, 0, 1),
        put(6, Answer::Full, 0, 0, 1),
        take(Answer::Item, 5, 0, 1, 1),
        put(7, Answer::At, 1, 1, 2),
        take(Answer::Item, 7, 1, 2, 2),
        put(8, Answer::At, 2, 2, 3),
        take(Answer::Item, 8, 2, 3, 3),
    ]
}

/// Makes a queue of two clients on a device.
pub fn fresh(
    rt: &impl Abort,
    alloc: Global,
    device: Image,
    size: u32,
) -> Result<TwinQueue<Image>, Why> {
    fresh_of(rt, alloc, device, 2, size)
}

fn fresh_of(
    rt: &impl Abort,
    alloc: Global,
    device: Image,
    clients: u32,
    size: u32,
) -> Result<TwinQueue<Image>, Why> {
    assert!(rt; clients >= 1 && clients <= 16);
    assert!(rt; size >= 1 && size <= 1024);
    match TwinQueue::fresh(alloc, device, clients, size) {
        Ok(queue) => Ok(queue),
        Err(refused) => Err(refused.why),
    }
}

/// A queue on a device of zeros with this room.
pub fn made(
    rt: &impl Abort,
    alloc: Global,
    room: u32,
    clients: u32,
    size: u32,
) -> TwinQueue<Image> {
    match fresh_of(rt, alloc, zeros(rt, alloc, room), clients, size) {
        Ok(queue) => queue,
        Err(_) => panic!(rt; "the queue is made"),
    }
}

/// A device of zeros with this room.
pub fn zeros(rt: &impl Abort, alloc: Global, room: u32) -> Image {
    Image::zero(alloc, room).expect(rt, "memory")
}

/// Opens the queue that a device holds, and settles it: nothing was in doubt.
pub fn reopened(rt: &impl Abort, alloc: Global, device: Image) -> TwinQueue<Image> {
    match open(rt, alloc, device) {
        Ok(mut queue) => {
            assert!(rt; settle(rt, &mut queue) == Ok(false));
            queue
        }
        Err(_) => panic!(rt; "the queue is opened"),
    }
}

/// Opens the queue that a device holds.
pub fn open(rt: &impl Abort, alloc: Global, device: Image) -> Result<TwinQueue<Image>, Why> {
    let pair = match Pair::open(alloc, device) {
        Ok(pair) => pair,
        Err(refused) => return Err(refused.why),
    };
    assert!(rt; pair.header().kind == Kind::Queue);
    match TwinQueue::adopt(alloc, pair) {
        Ok(queue) => Ok(queue),
        Err(refused) => Err(refused.why),
    }
}

/// Settles a queue. The answer says whether the round in doubt is recorded.
pub fn settle(rt: &impl Abort, queue: &mut TwinQueue<Image>) -> Result<bool, DeviceFault> {
    assert!(rt; !queue.sure());
    let recorded = queue.settle();
    assert!(rt; recorded.is_err() || queue.sure());
    recorded
}

/// How many requests of a client are recorded.
pub fn recorded(rt: &impl Abort, queue: &TwinQueue<Image>, client: u32) -> u64 {
    assert!(rt; client < queue.clients());
    queue.kept(client).number
}

/// Serves a client's next request in a round of its own.
pub fn serve(
    rt: &impl Abort,
    queue: &mut TwinQueue<Image>,
    client: u32,
    op: &Op,
) -> Result<Reply, DeviceFault> {
    assert!(rt; queue.sure());
    assert!(rt; client < queue.clients());
    let before = queue.kept(client).number;
    assert!(rt; before < LAST_NUMBER);
    assert!(rt; is_operation(Kind::Queue, op));
    let mut asks = ArrayVec::new();
    asks.push(Ask {
        client,
        number: before + 1,
        op: *op,
    });
    queue.round(&asks)?;
    assert!(rt; client < queue.clients());
    Ok(queue.kept(client).reply)
}

/// Serves the first client's request, which gets the reply that is expected.
pub fn serve_step(rt: &impl Abort, queue: &mut TwinQueue<Image>, step: &Step) {
    assert!(rt; serve(rt, queue, 0, &step.op) == Ok(step.reply));
    assert!(rt; stands_at(queue, step.head, step.tail));
}

/// A queue's head and tail are these.
pub fn stands_at(queue: &TwinQueue<Image>, head: u64, tail: u64) -> bool {
    queue.head() == head && queue.tail() == tail
}
