//! Devices to which operations were done, and devices that are to fail.
ghost use Rattle.std.specs.Prelude.{◌↔◌, IsTrue};
ghost use Rattle.pb_pmem.specs.Operations.{IsWithin};

use pb_crash::Leaves;
use pb_image::{Call, Fail, Image};
use pb_pmem::{LINES, LogOp, make};
use std::alloc::{AllocError, Global};

fn is_within(op: &LogOp) -> bool
    ensures { IsTrue result ↔ IsWithin op.now }
{
    match *op {
        LogOp::Whole { line, .. } => line < LINES,
        LogOp::Word { line, word, .. } => line < LINES && word < 8,
        LogOp::Back { first, count } => first <= LINES && count <= LINES - first,
        LogOp::Fence => true,
        LogOp::Sync => true,
    }
}

/// A device of zeros with this room to which the first of these operations were done, up to one that isn't within the device or fails.
pub fn made(alloc: Global, ops: &[LogOp], room: u32) -> Result<Image, AllocError> {
    let mut device = Image::zero(alloc, room)?;
    for op in ops {
        if !is_within(op) || make(&mut device, op).is_err() {
            return Ok(device);
        }
    }
    Ok(device)
}

/// Lets a device fail in this way at these calls of a kind, counted from now on, and at no other call.
pub fn failing_at(
    alloc: Global,
    device: &mut Image,
    call: Call,
    calls: &[u64],
    how: Leaves,
) -> Result<(), AllocError> {
    let mut fails = Vec::new(alloc);
    for nth in calls {
        let nth = *nth;
        fails.push(Fail { call, nth, how })?;
    }
    device.failing(fails);
    Ok(())
}
