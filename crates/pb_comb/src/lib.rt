//! The combining engine of a map, a stack or a heap: one round makes the requests of up to sixteen clients durable.
#![tactic(auto)]

mod comb;
mod memory;
mod serve;

pub use comb::Comb;
