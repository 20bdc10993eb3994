//! The operations that a log of a device has.
use crate::line::Line;

/// An operation that changes a device, or orders what a crash may leave of it.
#[derive(Clone, Copy, Debug, PartialEq, Eq)]
pub enum LogOp {
    /// A whole line was written. Until that is settled, a crash may leave anything in the line.
    Whole { line: u32, to: Line },
    /// One word of a line was written.
    Word { line: u32, word: u32, to: u64 },
    /// The lines from `first` on, `count` of them, were given to the device. It may take its time.
    Back { first: u32, count: u32 },
    /// A mark, which isn't waited for. It orders: where a crash leaves anything of what is written after it, what was given to the device
    /// before it is there.
    Fence,
    /// A mark that the device has reached when the call returns: what was given to it before the mark is durable.
    Sync,
}
