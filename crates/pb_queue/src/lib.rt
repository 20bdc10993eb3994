//! The queue: an engine with two sides, whose puts and takes have records, rounds and kept requests
//! of their own.
#![tactic(auto)]

mod items;
mod kept;
mod recovery;
mod serve;
mod store;
mod twin;

pub use items::Items;
pub use twin::TwinQueue;

#[cfg(test)]
mod tests;
