//! The laws of crash safety: what a crash leaves of a region while it is formatted, stored and settled.
#![tactic(auto)]

pub mod laws;
