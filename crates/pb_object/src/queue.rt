//! A queue's plain state: how many items were taken, and those that wait.
ghost use Rattle.std.specs.Prelude.{◌≡◌, IfOk, OnOk, OnErr};
ghost use Rattle.pb_object.specs.Queue.{empty_queue, queue_reply, next_waiting, put_reply, after_put, take_reply, after_take};

use crate::codes::{Action, Answer};
use crate::request::{Op, Reply};
use std::alloc::{AllocError, Global};
use std::collections::VecDeque;
use std::marker::Model;

/// The last position that a queue can reach: 2^62. After it the queue is worn: nothing more is put.
pub const LAST_POSITION: u64 = 4611686018427387904;

/// The plain state of a queue: a count of the items ever taken, and the items still in it, from the head to the tail.
#[derive(Drop)]
pub struct PlainQueue {
    taken: u64,
    items: VecDeque<u64>,
}

impl Model for PlainQueue {
    ghost use Rattle.std.specs.Prelude.{◌≤◌, ◌+◌, length};
    ghost use Rattle.pb_object.specs.Queue.{Waiting, last_position};

    ghost Value = { Waiting };

    ghost view = { λ queue. record { taken = queue.taken; items = queue.items.items } };

    ghost invariant = { λ queue. queue.taken + length queue.items.items ≤ last_position };
}

impl PlainQueue {
    /// The empty queue from which nothing was taken yet.
    pub fn new(alloc: Global) -> Self
        ensures { result ≡ empty_queue }
    {
        PlainQueue {
            taken: 0,
            items: VecDeque::new(alloc),
        }
    }

    /// What an operation does to a queue of a size, and its reply. Where memory is refused the queue stays.
    pub fn apply(&mut self, size: u32, op: &Op) -> Result<Reply, AllocError>
        ensures after { OnOk result (self.new ≡ next_waiting size self.old op.now) }
        ensures reply { IfOk result (λ reply. reply ≡ queue_reply size self.old op.now) }
        ensures err { OnErr result (self.new ≡ self.old) }
    {
        match Action::from_code(op.code) {
            Some(Action::QueuePut) => self.put(size, op.a),
            Some(Action::QueueTake) => Ok(self.take()),
            _ => Ok(Reply::default()),
        }
    }

    fn put(&mut self, size: u32, item: u64) -> Result<Reply, AllocError>
        ensures after { OnOk result (self.new ≡ after_put size self.old item) }
        ensures reply { IfOk result (λ reply. reply ≡ put_reply size self.old) }
        ensures err { OnErr result (self.new ≡ self.old) }
    {
        if self.items.len() >= size as usize {
            return Ok(Reply::new(Answer::Full, 0, 0));
        }
        let tail = self.taken + self.items.len() as u64;
        if tail >= LAST_POSITION {
            return Ok(Reply::new(Answer::Worn, 0, 0));
        }
        self.items.push_back(item)?;
        Ok(Reply::new(Answer::At, tail, 0))
    }

    fn take(&mut self) -> Reply
        ensures after { self.new ≡ after_take self.old.taken self.old.items }
        ensures reply { result ≡ take_reply self.old.taken self.old.items }
    {
        match self.items.pop_front() {
            Some(item) => {
                let position = self.taken;
                self.taken += 1;
                Reply::new(Answer::Item, item, position)
            }
            None => Reply::new(Answer::Empty, 0, 0),
        }
    }
}
