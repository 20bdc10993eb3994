//! What a round makes of lines: its next record with the replies, and the calls that store it.
#![tactic(auto)]

mod items;
mod place;
mod queue;
mod rounds;
mod seat;
mod serving;
mod settle;
mod store;

pub use items::Items;
pub use place::record;
pub use queue::{Ends, ends_in, serve_queue};
pub use rounds::Rounds;
pub use seat::{Row, Seat, Stage};
pub use serving::{serve, serve_heap};
pub use settle::plan_settling;
pub use store::plan_store;
