//! The trait of objects that one combiner keeps.
ghost use Rattle.std.specs.Prelude.{◌≡◌, ◌≢◌, ◌≤◌, ◌↔◌, length, IsTrue, IfOk, IfErr, IsOk, OnOk, OnErr};
ghost use Rattle.pb_object.specs.declared.kind.Kind.{Kind};
ghost use Rattle.pb_object.specs.declared.kind.Kind.TheVariants.{Queue};
ghost use Rattle.pb_object.specs.declared.limits.TheConstants.{MOST_SIZE};
ghost use Rattle.pb_object.specs.Changes.{after_asks};
ghost use Rattle.pb_object.specs.Object.{State, start_state, next_state, reply_of};
ghost use Rattle.pb_object.specs.ObjectLines.{kind_of, size_of, object_line_count, LinesRepresent, IsFirstRefused};
ghost use Rattle.pb_object.specs.Request.{IsOperation};

use crate::kind::Kind;
use crate::request::{Ask, Op, Reply, is_operation};
use pb_pmem::Line;
use std::alloc::{AllocError, Global};

/// Object lines that represent no state.
#[derive(Clone, Copy, Debug, PartialEq, Eq)]
pub struct NotAState {
    /// The place of the first line that the format refuses.
    pub line: u32,
}

/// An object that one combiner keeps: a map, a stack or a heap.
///
/// A contract sees it as the plain state of its kind. Its size is in 1..=[`MOST_SIZE`] and never changes, and no call but `fresh` takes memory.
pub trait Object: Sized + Drop {
    /// The object's kind.
    const KIND: Kind;

    ghost KIND: { Kind };

    /// The object's plain state.
    ghost state: { Self → State };

    /// The empty object of a size.
    fn fresh(alloc: Global, size: u32) -> Result<Self, AllocError>
        requires least { 1 ≤ size }
        requires most { size ≤ MOST_SIZE }
        ensures { IfOk result (λ object. state object ≡ start_state KIND size) };

    /// Whether an operation is one of this kind of object: `apply` takes no other.
    fn accepts(op: &Op) -> bool
        ensures { IsTrue result ↔ IsOperation KIND op.now }
    {
        is_operation(Self::KIND, op)
    }

    /// The size that the object was made with.
    fn size(&self) -> u32
        ensures size { result ≡ size_of (state self.now) }
        ensures least { 1 ≤ result }
        ensures most { result ≤ MOST_SIZE };

    /// Does what the operation says, and replies.
    fn apply(&mut self, op: &Op) -> Reply
        requires { IsOperation KIND op.now }
        ensures after { state self.new ≡ next_state (state self.old) op.now }
        ensures reply { result ≡ reply_of (state self.old) op.now };

    /// Becomes equal to another object of the same size.
    fn copy_from(&mut self, from: &Self)
        requires { size_of (state self.old) ≡ size_of (state from.now) }
        ensures { state self.new ≡ state from.now };

    /// How many object lines represent an object of this kind and size.
    fn lines(&self) -> u32
        ensures { result ≡ object_line_count KIND (size_of (state self.now)) };

    /// Writes lines that represent the state.
    fn put_lines(&self, into: &mut [Line])
        requires { length into.old ≡ object_line_count KIND (size_of (state self.now)) }
        ensures { LinesRepresent into.new (state self.now) };

    /// Brings lines up to date that represent the state before these requests were applied.
    ///
    /// It may write all lines. An object whose requests touch few of them writes those alone.
    fn put_changes(&self, asks: &[Ask], into: &mut [Line])
        requires { length into.old ≡ object_line_count KIND (size_of (state self.now)) }
        ensures { (before : State)
            → LinesRepresent into.old before
            → state self.now ≡ after_asks before asks.now
            → LinesRepresent into.new (state self.now) }
    {
        self.put_lines(into);
    }

    /// Takes the state that the lines represent, or names the first line that the format refuses. After an error the state is as before.
    fn take_lines(&mut self, from: &[Line]) -> Result<(), NotAState>
        requires { length from.now ≡ object_line_count KIND (size_of (state self.old)) }
        ensures taken { OnOk result (LinesRepresent from.now (state self.new)) }
        ensures size { size_of (state self.new) ≡ size_of (state self.old) }
        ensures refused { IfErr result (λ refused. IsFirstRefused KIND (size_of (state self.old)) from.now refused.line) }
        ensures err { OnErr result (state self.new ≡ state self.old) };

    /// The state is one of the object's kind.
    ghost is_of_kind: { (object : Self) → kind_of (state object) ≡ KIND };

    /// A queue's two sides are combined apart: it is no such object.
    ghost is_no_queue: { KIND ≢ Queue };
}

/// What one object writes as lines another of the same size takes as the same state.
pub fn pass_by_lines<O: Object>(from: &O, into: &mut O, lines: &mut [Line]) -> Result<(), NotAState>
    requires size { size_of (O.state into.old) ≡ size_of (O.state from.now) }
    requires count { length lines.old ≡ object_line_count O.KIND (size_of (O.state from.now)) }
    ensures ok { IsOk result }
    ensures same { O.state into.new ≡ O.state from.now }
{
    from.put_lines(lines);
    into.take_lines(lines)
}
