//! The items of a queue in memory.
ghost use Rattle.std.specs.Prelude.{◌≡◌, ◌%◌, ◌<◌, length};
ghost use Rattle.pb_queue.specs.Items.{item_at};

use pb_object::{Action, Answer, LAST_POSITION, Op, Reply};
use std::alloc::{AllocError, Global};
use std::marker::Model;

/// The items that wait in a queue, in a ring of as many places as the queue's size: those that are
/// known for sure, and those after the operations that were applied since.
///
/// A contract sees it as an `ItemsView`. No call but `fresh` takes memory, and each is constant
/// work.
#[derive(Drop)]
pub struct Items {
    places: Vec<u64>,
    // The positions of the first item that waits and of the next one that is put, as they are known
    // for sure.
    head: u64,
    tail: u64,
    // The same after what was applied since.
    next_head: u64,
    next_tail: u64,
}

impl Model for Items {
    ghost use Rattle.std.specs.Prelude.{length};
    ghost use Rattle.pb_queue.specs.Items.{ItemsView, ring_view, ArePositions};

    ghost Value = { ItemsView };

    ghost view = { λ items. ring_view items.places.items items.head items.tail items.next_head items.next_tail };

    ghost invariant = { λ items. ArePositions (length items.places.items) items.head items.tail items.next_head items.next_tail };
}

impl Items {
    ghost use Rattle.std.specs.Prelude.{◌≡◌, ◌-◌, ◌<◌, ◌≤◌, IfOk, Some, length, slice_index};
    ghost use Rattle.pb_object.specs.declared.codes.Action.TheVariants.{QueuePut};
    ghost use Rattle.pb_object.specs.declared.limits.TheConstants.{MOST_SIZE};
    ghost use Rattle.pb_object.specs.Codes.{action_of};
    ghost use Rattle.pb_object.specs.Queue.{last_position, tail_of, queue_reply, next_waiting, put_reply, after_put, take_reply, after_take};
    ghost use Rattle.pb_queue.specs.Items.{IsBounded, empty_items, with_item};

    /// An empty queue of a size, from which so many items were taken before.
    pub fn fresh(alloc: Global, size: u32, taken: u64) -> Result<Items, AllocError>
        requires least { 1 ≤ size }
        requires most { size ≤ MOST_SIZE }
        requires taken { taken ≤ last_position }
        ensures { IfOk result (λ items. items ≡ empty_items size taken) }
    {
        let places = vec![in alloc; 0; size as usize]?;
        Ok(Items {
            places,
            head: taken,
            tail: taken,
            next_head: taken,
            next_tail: taken,
        })
    }

    /// The position of the first item that waits for sure: so many were taken.
    pub fn head(&self) -> u64
        ensures { result ≡ self.now.sure.taken }
    {
        self.head
    }

    /// The position of the next item that is put, as it is known for sure: so many were put.
    pub fn tail(&self) -> u64
        ensures { result ≡ tail_of self.now.sure }
    {
        self.tail
    }

    /// The item that waits for sure at a position.
    pub fn item(&self, position: u64) -> u64
        requires after { self.now.sure.taken ≤ position }
        requires before { position < tail_of self.now.sure }
        ensures { result ≡ slice_index self.now.sure.items (position - self.now.sure.taken) }
    {
        item_at(&self.places, position)
    }

    /// How many items were taken after what was applied.
    pub fn next_head(&self) -> u64
        ensures { result ≡ self.now.next.taken }
    {
        self.next_head
    }

    /// How many items were put after what was applied.
    pub fn next_tail(&self) -> u64
        ensures tail { result ≡ tail_of self.now.next }
        ensures bounded { IsBounded self.now.size self.now.next }
    {
        self.next_tail
    }

    /// The item that waits at a position after what was applied.
    pub fn next_item(&self, position: u64) -> u64
        requires after { self.now.next.taken ≤ position }
        requires before { position < tail_of self.now.next }
        ensures { result ≡ slice_index self.now.next.items (position - self.now.next.taken) }
    {
        item_at(&self.places, position)
    }

    /// Does what an operation of a queue says to what waits after those applied before, and
    /// replies.
    ///
    /// A put needs that no take was applied that isn't sure: it could take the place of an item
    /// that still waits.
    pub fn apply(&mut self, op: &Op) -> Reply
        requires { action_of op.now.code ≡ Some QueuePut → self.old.next.taken ≡ self.old.sure.taken }
        ensures after { self.new ≡ record self.old { next = next_waiting self.old.size self.old.next op.now } }
        ensures reply { result ≡ queue_reply self.old.size self.old.next op.now }
    {
        match Action::from_code(op.code) {
            Some(Action::QueuePut) => self.put(op.a),
            Some(Action::QueueTake) => self.take(),
            _ => Reply::default(),
        }
    }

    /// Appends an item to what waits after what was applied. It has to have a place and a position.
    pub fn append(&mut self, item: u64)
        requires kept { self.old.next.taken ≡ self.old.sure.taken }
        requires room { length self.old.next.items < self.old.size }
        requires last { tail_of self.old.next < last_position }
        ensures { self.new ≡ record self.old { next = with_item self.old.next item } }
    {
        let place = place_of(self.places.len(), self.next_tail);
        self.places[place] = item;
        self.next_tail += 1;
    }

    /// What was applied is known for sure now.
    pub fn confirm(&mut self)
        ensures { self.new ≡ record self.old { sure = self.old.next } }
    {
        self.head = self.next_head;
        self.tail = self.next_tail;
    }

    /// Takes back what was applied and isn't known for sure.
    pub fn revert(&mut self)
        ensures { self.new ≡ record self.old { next = self.old.sure } }
    {
        self.next_head = self.head;
        self.next_tail = self.tail;
    }

    fn put(&mut self, item: u64) -> Reply
        requires { self.old.next.taken ≡ self.old.sure.taken }
        ensures after { self.new ≡ record self.old { next = after_put self.old.size self.old.next item } }
        ensures reply { result ≡ put_reply self.old.size self.old.next }
    {
        if self.next_tail - self.next_head >= self.places.len() as u64 {
            return Reply::new(Answer::Full, 0, 0);
        }
        if self.next_tail >= LAST_POSITION {
            return Reply::new(Answer::Worn, 0, 0);
        }
        let position = self.next_tail;
        self.append(item);
        Reply::new(Answer::At, position, 0)
    }

    fn take(&mut self) -> Reply
        ensures after { self.new ≡ record self.old { next = after_take self.old.next.taken self.old.next.items } }
        ensures reply { result ≡ take_reply self.old.next.taken self.old.next.items }
    {
        if self.next_head == self.next_tail {
            return Reply::new(Answer::Empty, 0, 0);
        }
        let position = self.next_head;
        self.next_head += 1;
        Reply::new(Answer::Item, item_at(&self.places, position), position)
    }
}

fn item_at(places: &[u64], position: u64) -> u64
    requires { 0 < length places.now }
    ensures { result ≡ item_at places.now position }
{
    places[place_of(places.len(), position)]
}

// The place of a position in a ring of a size.
fn place_of(size: usize, position: u64) -> usize
    requires { 0 < size }
    ensures { result ≡ position % size }
{
    (position % size as u64) as usize
}
