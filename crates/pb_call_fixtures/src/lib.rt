//! What tests of the whole program share: a call of it over streams in memory, and what the call comes to.
#![tactic(auto)]

mod calling;

pub use calling::{Called, Streams, WIDE, call, call_over, says};
