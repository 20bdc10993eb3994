//! A heap's plain state: its items, rising.
ghost use Rattle.std.specs.Prelude.{◌≡◌, ◌≤◌, length, drop, slice_get, IfOk, OnOk, OnErr};
ghost use Rattle.std.specs.List.{insert};
ghost use Rattle.pb_object.specs.Heap.{heap_reply, next_rising, insert_rising};

use crate::codes::{Action, Answer};
use crate::request::{Op, Reply};
use std::alloc::AllocError;

/// What an operation does to the rising items of a heap, and its reply. Where memory is refused the items stay.
pub fn apply_to_heap(size: u32, rising: &mut Vec<u64>, op: &Op) -> Result<Reply, AllocError>
    ensures after { OnOk result (rising.new.items ≡ next_rising size rising.old.items op.now) }
    ensures reply { IfOk result (λ reply. reply ≡ heap_reply size rising.old.items op.now) }
    ensures err { OnErr result (rising.new.items ≡ rising.old.items) }
{
    match Action::from_code(op.code) {
        Some(Action::Insert) => {
            if rising.len() >= size as usize {
                return Ok(Reply::new(Answer::Full, 0, 0));
            }
            let place = place_for(rising, op.a);
            rising.insert(place, op.a)?;
            Ok(Reply::new(Answer::Size, rising.len() as u64, 0))
        }
        Some(Action::RemoveMin) => Ok(Reply::of_item(take_first(rising))),
        Some(Action::Min) => Ok(Reply::of_item(rising.first().copied())),
        _ => Ok(Reply::default()),
    }
}

fn place_for(rising: &[u64], item: u64) -> usize
    ensures within { result ≤ length rising.now }
    ensures place { insert_rising item rising.now ≡ insert rising.now result item }
{
    for (place, other) in rising.iter().enumerate() {
        if item <= *other {
            return place;
        }
    }
    rising.len()
}

fn take_first(rising: &mut Vec<u64>) -> Option<u64>
    ensures first { result ≡ slice_get rising.old.items 0 }
    ensures rest { rising.new.items ≡ drop 1 rising.old.items }
{
    if rising.is_empty() {
        None
    } else {
        Some(rising.remove(0))
    }
}
