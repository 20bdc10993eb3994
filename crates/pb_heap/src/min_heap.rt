//! The bounded heap.
ghost use Rattle.std.specs.Prelude.{◌≡◌, length, drop, slice_get, refl, IfOk};
ghost use Rattle.pb_object.specs.declared.kind.Kind.TheVariants.{Heap};
ghost use Rattle.pb_object.specs.Heap.{after_insert, insert_reply};
ghost use Rattle.pb_object.specs.Object.{Rising};
ghost use Rattle.pb_object.specs.Stack.{item_reply};

use crate::lines::take_ordered;
use crate::order::{add_item, least_item, remove_least};
use pb_object::{Action, Answer, Kind, NotAState, Object, Op, Reply, put_items};
use pb_pmem::Line;
use std::alloc::{AllocError, Global};
use std::marker::Model;

/// A heap of at most `size` items, which gives a least item first. A contract sees it as its size and its items in rising order.
///
/// The items lie in heap order: the children of place i are the places 2i + 1 and 2i + 2.
#[derive(Drop)]
pub struct MinHeap {
    places: Vec<u64>,
    len: usize,
}

impl Model for MinHeap {
    ghost use Rattle.std.specs.Prelude.{take, length};
    ghost use Rattle.pb_object.specs.Heap.{rising_of};
    ghost use Rattle.pb_object.specs.Stack.{Bounded};
    ghost use Rattle.pb_heap.specs.Places.{ArePlaces};

    ghost Value = { Bounded };

    ghost view = { λ heap. record { size = length heap.places.items; items = rising_of (take heap.len heap.places.items) } };

    ghost invariant = { λ heap. ArePlaces heap.places.items heap.len };
}

impl MinHeap {
    /// How many items there are.
    #[tactic(auto, using(crate::proofs::OrderLemmas::length_rising))]
    pub fn len(&self) -> u32
        ensures { result ≡ length self.now.items }
    {
        self.len as u32
    }

    /// The items in rising order.
    pub fn rising(&self, alloc: Global) -> Result<Vec<u64>, AllocError>
        ensures { IfOk result (λ items. items.items ≡ self.now.items) }
    {
        let mut items = Vec::from_slice(alloc, &self.places[..self.len])?;
        items.sort_unstable();
        Ok(items)
    }

    #[tactic(auto, using(crate::proofs::OrderLemmas::length_rising))]
    fn insert(&mut self, item: u64) -> Reply
        ensures after { self.new ≡ record self.old { items = after_insert self.old.size self.old.items item } }
        ensures reply { result ≡ insert_reply self.old.size self.old.items }
    {
        if self.len == self.places.len() {
            return Reply::new(Answer::Full, 0, 0);
        }
        add_item(&mut self.places, self.len, item);
        self.len += 1;
        Reply::new(Answer::Size, self.len as u64, 0)
    }

    fn remove_min(&mut self) -> Reply
        ensures after { self.new ≡ record self.old { items = drop 1 self.old.items } }
        ensures reply { result ≡ item_reply (slice_get self.old.items 0) }
    {
        let reply = self.min();
        if self.len > 0 {
            remove_least(&mut self.places, self.len);
            self.len -= 1;
        }
        reply
    }

    fn min(&self) -> Reply
        ensures { result ≡ item_reply (slice_get self.now.items 0) }
    {
        if self.len == 0 {
            Reply::new(Answer::Empty, 0, 0)
        } else {
            Reply::new(Answer::Item, least_item(&self.places[..self.len]), 0)
        }
    }
}

impl Object for MinHeap {
    const KIND: Kind = Kind::Heap;

    ghost KIND = { Heap };

    ghost state = { λ heap. Rising heap.size heap.items };

    fn fresh(alloc: Global, size: u32) -> Result<Self, AllocError> {
        let places = vec![in alloc; 0; size as usize]?;
        Ok(MinHeap { places, len: 0 })
    }

    fn size(&self) -> u32 {
        self.places.len() as u32
    }

    fn apply(&mut self, op: &Op) -> Reply {
        match Action::from_code(op.code) {
            Some(Action::Insert) => self.insert(op.a),
            Some(Action::RemoveMin) => self.remove_min(),
            Some(Action::Min) => self.min(),
            _ => Reply::default(),
        }
    }

    fn copy_from(&mut self, from: &Self) {
        self.places.copy_from_slice(&from.places);
        self.len = from.len;
    }

    fn lines(&self) -> u32 {
        (self.places.len() as u32 + 7) / 8 + 1
    }

    fn put_lines(&self, into: &mut [Line]) {
        put_items(&self.places[..self.len], into);
    }

    fn take_lines(&mut self, from: &[Line]) -> Result<(), NotAState> {
        self.len = take_ordered(&mut self.places, from)?;
        Ok(())
    }

    ghost is_of_kind = { λ _. refl };

    ghost is_no_queue = { λ e. Prim.cc };
}
