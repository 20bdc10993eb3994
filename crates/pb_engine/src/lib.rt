//! What an engine of a recoverable object is: requests become durable in rounds, and after a fault or a crash it says what became of them.
#![tactic(auto)]

mod engine;
pub mod laws;
mod next;

pub use engine::Engine;
pub use next::NextRecord;
