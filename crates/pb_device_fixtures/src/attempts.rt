use pb_crash::Leaves;
use pb_image::{Call, Fail, Image};
use pb_pmem::{Line, LogOp};
use std::alloc::{AllocError, Global};

/// The ways in which a call fails.
pub const WAYS: [Leaves; 4] = [Leaves::Left, Leaves::Done, Leaves::Torn(9), Leaves::Fenced];

/// A device call: the operation that it makes, and how it fails where it does.
#[derive(Clone, Copy)]
pub struct Attempt {
    pub op: LogOp,
    pub fails: Option<Leaves>,
}

// The kind of call that makes an operation.
fn kind(op: &LogOp) -> Call {
    match op {
        LogOp::Whole { .. } => Call::Write,
        LogOp::Word { .. } => Call::SetWord,
        LogOp::Back { .. } => Call::WriteBack,
        LogOp::Fence => Call::Fence,
        LogOp::Sync => Call::Sync,
    }
}

// What a failing call of this operation leaves.
fn left_by(op: LogOp, how: Leaves) -> Option<LogOp> {
    match (how, op) {
        (Leaves::Done, op) => Some(op),
        (Leaves::Torn(word), LogOp::Whole { line, .. }) => {
            let to = Line { words: [word; 8] };
            Some(LogOp::Whole { line, to })
        }
        (Leaves::Fenced, LogOp::Sync) => Some(LogOp::Fence),
        _ => None,
    }
}

/// Adds the calls that make the first `count` of these operations.
pub fn add(attempts: &mut Vec<Attempt>, ops: &[LogOp], count: usize) -> Result<(), AllocError> {
    for op in ops.iter().take(count) {
        attempts.push(Attempt {
            op: *op,
            fails: None,
        })?;
    }
    Ok(())
}

/// Adds the calls that make the first `count` of these operations, and the next one, which fails.
pub fn add_failing(
    attempts: &mut Vec<Attempt>,
    ops: &[LogOp],
    count: usize,
    how: Leaves,
) -> Result<(), AllocError> {
    add(attempts, ops, count)?;
    if let Some(op) = ops.get(count) {
        attempts.push(Attempt {
            op: *op,
            fails: Some(how),
        })?;
    }
    Ok(())
}

// The number of a call among those of its kind.
fn number(attempts: &[Attempt], place: usize, call: Call) -> u64 {
    let mut nth = 1u64;
    for attempt in attempts.iter().take(place) {
        if kind(&attempt.op) == call {
            nth = nth.saturating_add(1);
        }
    }
    nth
}

/// What a device is told that is to fail in these calls.
pub fn failures(alloc: Global, attempts: &[Attempt]) -> Result<Vec<Fail>, AllocError> {
    let mut fails = Vec::new(alloc);
    for (place, attempt) in attempts.iter().enumerate() {
        if let Some(how) = attempt.fails {
            let call = kind(&attempt.op);
            let nth = number(attempts, place, call);
            fails.push(Fail { call, nth, how })?;
        }
    }
    Ok(fails)
}

/// The log that these calls leave.
pub fn log_of(alloc: Global, attempts: &[Attempt]) -> Result<Vec<LogOp>, AllocError> {
    let mut log = Vec::new(alloc);
    for attempt in attempts {
        let op = match attempt.fails {
            Some(how) => left_by(attempt.op, how),
            None => Some(attempt.op),
        };
        if let Some(op) = op {
            log.push(op)?;
        }
    }
    Ok(log)
}

/// A device of zeros with this room, of which the calls fail that are to.
pub fn failing(alloc: Global, attempts: &[Attempt], room: u32) -> Result<Image, AllocError> {
    let mut device = Image::zero(alloc, room)?;
    device.failing(failures(alloc, attempts)?);
    Ok(device)
}
