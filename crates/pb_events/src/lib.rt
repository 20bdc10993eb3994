//! What may happen to clients, to the device and by a crash, and what comes of it.
#![tactic(auto)]

mod event;

pub use event::{Event, Stepped};
