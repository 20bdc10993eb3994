//! The layout of a region: where its lines stand, and how a header, a client's request and a cell are written and read.
#![tactic(auto)]

mod cells;
mod client;
mod fault;
mod header;
pub mod laws;
mod record;
mod region;
mod slots;

pub use cells::{cell, cell_of};
pub use client::{client_line, client_of};
pub use fault::LayoutFault;
pub use header::{Header, MAGIC, VERSION, header_line, header_of};
pub use record::{count_line, record_of};
pub use region::{cell_line, first_record, record_len, record_line};
pub use slots::{kept_in_slot, kept_of_both, put_in_front};

#[cfg(test)]
mod tests;
