//! Logs that begin as the worked one, and devices to which their operations were done.
use pb_device_fixtures::made;
use pb_image::Image;
use pb_pmem::LogOp;
use pb_region_fixtures::log_with;
use std::alloc::Global;
use std::process::Abort;

/// The first of the worked operations, and then these.
pub fn log(rt: &impl Abort, alloc: Global, count: usize, more: &[LogOp]) -> Vec<LogOp> {
    log_with(alloc, count, more).expect(rt, "memory")
}

/// A device of zeros to which these operations were done.
pub fn device(rt: &impl Abort, alloc: Global, ops: &[LogOp]) -> Image {
    let image = made(alloc, ops, 64).expect(rt, "memory");
    assert!(rt; image.log() == ops);
    image
}

/// A device of zeros to which the first of the worked operations were done.
pub fn worked_device(rt: &impl Abort, alloc: Global, count: usize) -> Image {
    device(rt, alloc, &log(rt, alloc, count, &[]))
}
