//! What a failing call of a device leaves of its operation, and what a crash leaves of a device.
#![tactic(auto)]

mod cuts;
mod image;
mod leaves;
mod lines;

pub use cuts::cuts_of;
pub use image::leave_image;
pub use leaves::{Leaves, left_by};
pub use lines::{add, apply, filled};
