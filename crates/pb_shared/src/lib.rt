//! Recoverable objects that threads share: requests are announced, and whoever takes the turn serves all of them in one round.
#![tactic(auto)]

mod answers;
mod asks;
mod fill;
mod gate;
mod holder;
mod judge;
mod lists;
mod pass;
mod passes;
mod reading;
mod scan;
mod shared;
mod tries;

pub use answers::{Again, Attempt, Performed};
pub use gate::{Gate, OpenGate};
pub use pass::Pass;
pub use shared::Shared;
