//! What a failing call of a device leaves of its operation.
ghost use Rattle.std.specs.Prelude.{◌≡◌};
ghost use Rattle.pb_crash.specs.Leaves.{left_by};

use crate::lines::filled;
use pb_pmem::LogOp;

/// What a failing call leaves in the log.
#[derive(Clone, Copy, Debug, PartialEq, Eq)]
pub enum Leaves {
    /// Nothing.
    Left,
    /// The operation of the call.
    Done,
    /// A write of the whole line with this number in each word, where the call writes a whole line, and else nothing.
    Torn(u64),
    /// A fence, where the call is a sync, and else nothing.
    Fenced,
}

/// What a failing call of an operation leaves in the log.
pub fn left_by(how: Leaves, op: LogOp) -> Option<LogOp>
    ensures { result ≡ left_by how op }
{
    match how {
        Leaves::Left => None,
        Leaves::Done => Some(op),
        Leaves::Torn(value) => match op {
            LogOp::Whole { line, .. } => Some(LogOp::Whole {
                line,
                to: filled(value),
            }),
            _ => None,
        },
        Leaves::Fenced => match op {
            LogOp::Sync => Some(LogOp::Fence),
            _ => None,
        },
    }
}
