//! The broker: a command and a script of requests in, their outcomes out, over an object on a device.
#![tactic(auto)]

pub mod chains;
mod command;
mod drill;
mod fresh;
pub mod laws;
mod print;
mod program;
mod replays;
mod reports;
mod requests;
mod run;
mod source;
mod status;
mod stop;

pub use program::{Done, top};
pub use replays::replay;
pub use reports::report;
pub use source::SOURCE_LIMIT;
pub use status::Status;
