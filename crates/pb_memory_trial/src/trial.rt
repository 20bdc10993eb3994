//! All calls of the trial, one after the other.
ghost use Rattle.std.specs.Prelude.{◌≤◌, length};

use crate::crash::{device_of, push_left};
use crate::numbers::push_numbers;
use crate::objects::{heap_after, queue_reply, stack_after};
use crate::streams::passed_on;
use crate::texts::plain_script;
use pb_object::{Action, Op};
use std::alloc::{AllocError, Global};

/// The most bytes of a source that are read.
pub const SOURCE_LIMIT: usize = 65536;

/// What the calls give for a source: its script in the plain form; what a crash leaves of a device; the
/// objects after an operation; and the first bytes of the source, passed on.
pub fn trial(alloc: Global, source: &[u8]) -> Result<Vec<u8>, AllocError>
    requires { length source.now ≤ SOURCE_LIMIT }
{
    let mut text = plain_script(alloc, source)?;
    push_left(alloc, &mut text, &device_of(alloc, source)?)?;
    push_objects(alloc, &mut text)?;
    text.extend_from_slice(&passed_on(alloc, source)?)?;
    Ok(text)
}

/// A line for each object: its items after one more was given to it, and of a queue the reply.
fn push_objects(alloc: Global, text: &mut Vec<u8>) -> Result<(), AllocError> {
    push_numbers(
        text,
        &stack_after(alloc, &[5, 3], &operation(Action::Push, 9))?,
    )?;
    push_numbers(
        text,
        &heap_after(alloc, &[3, 5], &operation(Action::Insert, 4))?,
    )?;
    let reply = queue_reply(alloc, &operation(Action::QueuePut, 7))?;
    push_numbers(text, &[reply.code, reply.value, reply.extra])
}

fn operation(action: Action, item: u64) -> Op {
    Op {
        code: action.code(),
        a: item,
        b: 0,
        c: 0,
    }
}
