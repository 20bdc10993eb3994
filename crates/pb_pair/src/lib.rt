//! A pair of records for each side of an object, and the index word that switches between them: the way in which a region is formatted,
//! opened, settled and changed, so that a crash leaves the old record or the new one.
#![tactic(auto)]

mod cells;
mod format;
mod known;
pub mod laws;
mod open;
mod pair;
mod settle;
mod side;
mod store;
mod why;

pub use known::Known;
pub use pair::Pair;
pub use why::{Refused, Why};
