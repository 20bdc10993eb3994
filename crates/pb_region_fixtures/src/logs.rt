//! Logs that begin as the worked one, and devices to which their operations were done.
use crate::worked_log::worked;
use pb_device_fixtures::made;
use pb_image::Image;
use pb_pmem::LogOp;
use std::alloc::{AllocError, Global};

/// The first of the worked operations, and then these.
pub fn log_with(alloc: Global, count: usize, more: &[LogOp]) -> Result<Vec<LogOp>, AllocError> {
    let mut ops = worked().to_vec(alloc)?;
    ops.truncate(count);
    ops.extend_from_slice(more)?;
    Ok(ops)
}

/// A device of zeros to which the first of the worked operations were done.
pub fn worked_device(alloc: Global, count: usize) -> Result<Image, AllocError> {
    made(alloc, &log_with(alloc, count, &[])?, 64)
}
