//! What tests over devices in memory share: operations written short, devices that fail or that are watched, and the devices that
//! crashes leave.
#![tactic(auto)]

mod attempts;
mod devices;
mod left;
mod ops;
mod watched;

pub use attempts::{Attempt, WAYS, add, add_failing, failing, failures, log_of};
pub use devices::{failing_at, made};
pub use left::{Left, crash_left, left_at};
pub use ops::{MAGIC, back, whole, word, zeros};
pub use watched::{Watch, Watched};
