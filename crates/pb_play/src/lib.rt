//! The core played: every event of every client, of the device and of a crash, one at a time, on data in memory.
#![tactic(auto)]

mod between;
mod calls;
mod crash;
mod device;
mod events;
mod hold;
mod memory;
mod next;
mod possible;
mod publish;
mod reopen;
mod scan;
mod wait;
mod work;
mod world;

pub use events::step;
pub use world::World;
