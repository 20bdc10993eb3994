//! Requests, their replies, and what is kept of them.
ghost use Rattle.std.specs.Prelude.{◌≡◌, ◌↔◌, IsTrue};
ghost use Rattle.pb_object.specs.Request.{IsOperation, LeavesUnusedZero, reply, side_of_op};
ghost use Rattle.pb_object.specs.Stack.{item_reply};

use crate::codes::{Action, Answer};
use crate::kind::Kind;

/// The last number that a request can have: 2^56 - 1.
pub const LAST_NUMBER: u64 = 72057594037927935;

/// How many requests are kept of each client: its last recorded ones.
pub const KEPT_REQUESTS: u32 = 8;

/// An operation: its code and its arguments. What an argument means goes by the code, and unused ones are 0.
#[derive(Clone, Copy, Debug, Default, PartialEq, Eq)]
pub struct Op {
    pub code: u64,
    pub a: u64,
    pub b: u64,
    pub c: u64,
}

/// A reply: its code, and two numbers whose meaning goes by the code. Unused ones are 0.
#[derive(Clone, Copy, Debug, Default, PartialEq, Eq)]
pub struct Reply {
    pub code: u64,
    pub value: u64,
    pub extra: u64,
}

impl Reply {
    /// The reply that says this, with its two numbers.
    pub fn new(answer: Answer, value: u64, extra: u64) -> Self
        ensures { result ≡ reply answer value extra }
    {
        Reply {
            code: answer.code(),
            value,
            extra,
        }
    }

    /// The reply of a stack or a heap that gives an item, or says that there is none.
    pub fn of_item(item: Option<u64>) -> Self
        ensures { result ≡ item_reply item }
    {
        match item {
            Some(item) => Reply::new(Answer::Item, item, 0),
            None => Reply::new(Answer::Empty, 0, 0),
        }
    }
}

/// A request: which client asks, under which number, for what.
#[derive(Clone, Copy, Debug, Default, PartialEq, Eq)]
pub struct Ask {
    pub client: u32,
    pub number: u64,
    pub op: Op,
}

/// A recorded request of a client with its reply. Number 0 means none, and then all is 0.
#[derive(Clone, Copy, Debug, Default, PartialEq, Eq)]
pub struct Kept {
    pub number: u64,
    pub op: Op,
    pub reply: Reply,
}

/// Whether an operation is one of this kind: its code is one of the kind's, and the arguments that it doesn't use are 0.
pub fn is_operation(kind: Kind, op: &Op) -> bool
    ensures { IsTrue result ↔ IsOperation kind op.now }
{
    match Action::from_code(op.code) {
        Some(action) => action.kind() == kind && leaves_unused_zero(action.argument_count(), op),
        None => false,
    }
}

/// The side of an operation: 1 for takes of a queue, else 0, also for what is no operation.
pub fn side_of(op: &Op) -> u32
    ensures { result ≡ side_of_op op.now }
{
    match Action::from_code(op.code) {
        Some(action) => action.side(),
        None => 0,
    }
}

fn leaves_unused_zero(used: usize, op: &Op) -> bool
    ensures { IsTrue result ↔ LeavesUnusedZero used op.now }
{
    (used > 0 || op.a == 0) && (used > 1 || op.b == 0) && (used > 2 || op.c == 0)
}
