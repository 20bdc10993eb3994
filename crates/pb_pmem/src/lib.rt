//! Persistent memory: lines, the log of operations on them, and the trait of devices.
#![tactic(auto)]

mod device;
pub mod laws;
mod line;
mod log;
mod operations;

pub use device::{DeviceFault, Pmem, PmemFault};
pub use line::{DEVICE_BYTES, LINES, Line};
pub use log::LogOp;
pub use operations::{make, make_all, write_lines};
