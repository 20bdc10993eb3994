//! An operation on the plain state of each object that takes memory.
ghost use Rattle.std.specs.Prelude.{◌≡◌, IfOk};
ghost use Rattle.pb_object.specs.Heap.{next_rising};
ghost use Rattle.pb_object.specs.Queue.{empty_queue, queue_reply};
ghost use Rattle.pb_object.specs.Stack.{next_items};

use pb_object::{Op, PlainQueue, Reply, apply_to_heap, apply_to_stack};
use std::alloc::{AllocError, Global};

/// How many items an object has room for.
const SIZE: u32 = 4;

/// The items of a stack of these items after an operation, bottom to top.
pub fn stack_after(alloc: Global, items: &[u64], op: &Op) -> Result<Vec<u64>, AllocError>
    ensures { IfOk result (λ after. after.items ≡ next_items SIZE items.now op.now) }
{
    let mut after = Vec::from_slice(alloc, items)?;
    apply_to_stack(SIZE, &mut after, op)?;
    Ok(after)
}

/// The items of a heap of these rising items after an operation, in rising order.
pub fn heap_after(alloc: Global, rising: &[u64], op: &Op) -> Result<Vec<u64>, AllocError>
    ensures { IfOk result (λ after. after.items ≡ next_rising SIZE rising.now op.now) }
{
    let mut after = Vec::from_slice(alloc, rising)?;
    apply_to_heap(SIZE, &mut after, op)?;
    Ok(after)
}

/// The reply of an empty queue to an operation.
pub fn queue_reply(alloc: Global, op: &Op) -> Result<Reply, AllocError>
    ensures { IfOk result (λ reply. reply ≡ queue_reply SIZE empty_queue op.now) }
{
    PlainQueue::new(alloc).apply(SIZE, op)
}
