//! Devices in memory: one that can fail and crash as it is told, and one that never does.
#![tactic(auto)]

mod bytes;
mod calls;
mod fail;
mod image;
mod lines;
mod sound;

pub use fail::{Call, Fail};
pub use image::Image;
pub use sound::Sound;
