//! The bounded min-heap.
#![tactic(auto)]

mod lines;
mod min_heap;
mod order;

pub use min_heap::MinHeap;
