//! A stack's plain state: its items from bottom to top.
ghost use Rattle.std.specs.Prelude.{◌≡◌, IfOk, OnOk, OnErr};
ghost use Rattle.pb_object.specs.Stack.{stack_reply, next_items};

use crate::codes::{Action, Answer};
use crate::request::{Op, Reply};
use std::alloc::AllocError;

/// What an operation does to the items of a stack, bottom to top, and its reply. Where memory is refused the items stay.
pub fn apply_to_stack(size: u32, items: &mut Vec<u64>, op: &Op) -> Result<Reply, AllocError>
    ensures after { OnOk result (items.new.items ≡ next_items size items.old.items op.now) }
    ensures reply { IfOk result (λ reply. reply ≡ stack_reply size items.old.items op.now) }
    ensures err { OnErr result (items.new.items ≡ items.old.items) }
{
    match Action::from_code(op.code) {
        Some(Action::Push) => {
            if items.len() >= size as usize {
                return Ok(Reply::new(Answer::Full, 0, 0));
            }
            items.push(op.a)?;
            Ok(Reply::new(Answer::Depth, items.len() as u64, 0))
        }
        Some(Action::Pop) => Ok(Reply::of_item(items.pop())),
        Some(Action::Top) => Ok(Reply::of_item(items.last().copied())),
        _ => Ok(Reply::default()),
    }
}
