//! What tests over regions share: a worked log, and the calls of a pair where what they ask for holds.
#![tactic(auto)]

mod logs;
mod pair;
mod worked_log;

pub use logs::{log_with, worked_device};
pub use pair::{format, format_map, open, round_of, store, store_next, tells};
pub use worked_log::{GET, HEAD, NONE, PUT, get_over_unknown, record, worked};
