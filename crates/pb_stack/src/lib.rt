//! The bounded stack.
#![tactic(auto)]

mod lines;
mod stack;

pub use stack::Stack;
