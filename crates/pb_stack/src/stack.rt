//! The bounded stack.
ghost use Rattle.std.specs.Prelude.{◌≡◌, ◌-◌, ◌<◌, length, take, slice_index, refl};
ghost use Rattle.pb_object.specs.declared.kind.Kind.TheVariants.{Stack as StackKind};
ghost use Rattle.pb_object.specs.Object.{Items};
ghost use Rattle.pb_object.specs.Stack.{item_reply, top_item, after_push, push_reply};

use pb_object::{Action, Answer, Kind, NotAState, Object, Op, Reply, put_items, take_items};
use pb_pmem::Line;
use std::alloc::{AllocError, Global};
use std::marker::Model;

/// A stack of at most `size` items. A contract sees it as its size and its list of items, from bottom to top.
#[derive(Drop)]
pub struct Stack {
    places: Vec<u64>,
    depth: usize,
}

impl Model for Stack {
    ghost use Rattle.std.specs.Prelude.{take, length};
    ghost use Rattle.pb_object.specs.Stack.{Bounded};
    ghost use Rattle.pb_stack.specs.Places.{ArePlaces};

    ghost Value = { Bounded };

    ghost view = { λ stack. record { size = length stack.places.items; items = take stack.depth stack.places.items } };

    ghost invariant = { λ stack. ArePlaces stack.places.items stack.depth };
}

impl Stack {
    /// How many items there are.
    pub fn depth(&self) -> u32
        ensures { result ≡ length self.now.items }
    {
        self.depth as u32
    }

    /// The item at a place, counted from the bottom.
    pub fn item(&self, place: u32) -> u64
        requires { place < length self.now.items }
        ensures { result ≡ slice_index self.now.items place }
    {
        self.places[place as usize]
    }

    fn push(&mut self, item: u64) -> Reply
        ensures after { self.new ≡ record self.old { items = after_push self.old.size self.old.items item } }
        ensures reply { result ≡ push_reply self.old.size self.old.items }
    {
        if self.depth == self.places.len() {
            return Reply::new(Answer::Full, 0, 0);
        }
        self.places[self.depth] = item;
        self.depth += 1;
        Reply::new(Answer::Depth, self.depth as u64, 0)
    }

    fn pop(&mut self) -> Reply
        ensures after { self.new ≡ record self.old { items = take (length self.old.items - 1) self.old.items } }
        ensures reply { result ≡ item_reply (top_item self.old.items) }
    {
        let reply = self.top();
        if self.depth > 0 {
            self.depth -= 1;
        }
        reply
    }

    fn top(&self) -> Reply
        ensures { result ≡ item_reply (top_item self.now.items) }
    {
        if self.depth == 0 {
            Reply::new(Answer::Empty, 0, 0)
        } else {
            Reply::new(Answer::Item, self.places[self.depth - 1], 0)
        }
    }
}

impl Object for Stack {
    const KIND: Kind = Kind::Stack;

    ghost KIND = { StackKind };

    ghost state = { λ stack. Items stack.size stack.items };

    fn fresh(alloc: Global, size: u32) -> Result<Self, AllocError> {
        let places = vec![in alloc; 0; size as usize]?;
        Ok(Stack { places, depth: 0 })
    }

    fn size(&self) -> u32 {
        self.places.len() as u32
    }

    fn apply(&mut self, op: &Op) -> Reply {
        match Action::from_code(op.code) {
            Some(Action::Push) => self.push(op.a),
            Some(Action::Pop) => self.pop(),
            Some(Action::Top) => self.top(),
            _ => Reply::default(),
        }
    }

    fn copy_from(&mut self, from: &Self) {
        self.places.copy_from_slice(&from.places);
        self.depth = from.depth;
    }

    fn lines(&self) -> u32 {
        (self.places.len() as u32 + 7) / 8 + 1
    }

    fn put_lines(&self, into: &mut [Line]) {
        put_items(&self.places[..self.depth], into);
    }

    fn take_lines(&mut self, from: &[Line]) -> Result<(), NotAState> {
        self.depth = take_items::<Stack>(&mut self.places, from)?;
        Ok(())
    }

    ghost is_of_kind = { λ _. refl };

    ghost is_no_queue = { λ e. Prim.cc };
}
