//! Several operations on a device, one after the other. Each of these calls stops at the first call of the device that fails.
ghost use Rattle.std.specs.Prelude.{◌≡◌, ◌+◌, ◌≤◌, [], ◌∷◌, length, OnOk, OnErr};
ghost use Rattle.pb_pmem.specs.declared.line.TheConstants.{LINES};
ghost use Rattle.pb_pmem.specs.Operations.{IsFailedPrefix, writes_from, Does, Stops, IsWithin, AllWithin};

use crate::device::{Pmem, PmemFault};
use crate::line::Line;
use crate::log::LogOp;

/// Makes one operation: the call of the device that adds it.
pub fn make<P: Pmem>(device: &mut P, op: &LogOp) -> Result<(), PmemFault>
    requires { IsWithin op.now }
    ensures ok { OnOk result (Does (op.now ∷ []) (P.seen device.old) (P.seen device.new)) }
    ensures err { OnErr result (Stops (IsFailedPrefix (op.now ∷ [])) (P.seen device.old) (P.seen device.new)) }
{
    match op {
        LogOp::Whole { line, to } => device.write(*line, to),
        LogOp::Word { line, word, to } => device.set_word(*line, *word, *to),
        LogOp::Back { first, count } => device.write_back(*first, *count),
        LogOp::Fence => device.fence(),
        LogOp::Sync => device.sync(),
    }
}

/// Makes operations in their order.
pub fn make_all<P: Pmem>(device: &mut P, ops: &[LogOp]) -> Result<(), PmemFault>
    requires { AllWithin ops.now }
    ensures ok { OnOk result (Does ops.now (P.seen device.old) (P.seen device.new)) }
    ensures err { OnErr result (Stops (IsFailedPrefix ops.now) (P.seen device.old) (P.seen device.new)) }
{
    for place in 0..ops.len() {
        make(device, &ops[place])?;
    }
    Ok(())
}

/// Writes lines in rising order, from a line of the device on.
pub fn write_lines<P: Pmem>(device: &mut P, first: u32, lines: &[Line]) -> Result<(), PmemFault>
    requires { first + length lines.now ≤ LINES }
    ensures ok { OnOk result (Does (writes_from first lines.now) (P.seen device.old) (P.seen device.new)) }
    ensures err { OnErr result (Stops (IsFailedPrefix (writes_from first lines.now)) (P.seen device.old) (P.seen device.new)) }
{
    for place in 0..lines.len() {
        let line = first + place as u32;
        make(
            device,
            &LogOp::Whole {
                line,
                to: lines[place],
            },
        )?;
    }
    Ok(())
}
