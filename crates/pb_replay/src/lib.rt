//! A schedule is replayed: its events happen one after the other in a world over a region that was just formatted, and their answers and
//! the report of what the device then holds are written, byte for byte.
#![tactic(auto)]

mod answers;
mod device;
pub mod laws;
mod played;
mod playing;
mod survey;

pub use played::{Played, play_schedule, write_played};
