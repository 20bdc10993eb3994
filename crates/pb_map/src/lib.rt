//! The versioned register map.
#![tactic(auto)]

mod lines;
mod reg_map;

pub use reg_map::RegMap;
