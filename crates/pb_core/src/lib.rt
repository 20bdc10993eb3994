//! The core: the laws of every event of every client, of the device and of a crash, on plain data.
#![tactic(auto)]

pub mod laws;
