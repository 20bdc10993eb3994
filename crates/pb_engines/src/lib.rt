//! The engine of a region of whatever kind: made on a device that has none, or opened from what a device holds.
#![tactic(auto)]

mod any;

pub use any::AnyEngine;
