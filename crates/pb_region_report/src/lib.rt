//! Reports of regions, byte for byte: what a region is, what is kept of each client, and what its object holds.
//!
//! A report is of the standing that an engine last knew for sure, whether it is sure now or not. No call changes the engine.
#![tactic(auto)]

mod clients;
mod head;
mod object_lines;
mod report;
mod unwritten;
mod writing;

pub use report::{write_heap, write_map, write_queue, write_stack};
pub use unwritten::Unwritten;
pub use writing::{rising_items, write_prepared, write_report};
