//! Where the marks of a log stand.
ghost use Rattle.std.specs.Prelude.{◌≡◌, ◌<◌, ◌≤◌, ◌^◌, length, take, drop, if◌then◌else◌};
ghost use Rattle.pb_pmem.specs.Crash.{is_mark, is_sync, marks, least_cut, through_mark, after_mark, until_mark};

use pb_pmem::LogOp;

fn is_mark(op: &LogOp) -> bool
    ensures { result ≡ is_mark op.now }
{
    match op {
        LogOp::Whole { .. } => false,
        LogOp::Word { .. } => false,
        LogOp::Back { .. } => false,
        LogOp::Fence => true,
        LogOp::Sync => true,
    }
}

fn is_sync(op: &LogOp) -> bool
    ensures { result ≡ is_sync op.now }
{
    match op {
        LogOp::Whole { .. } => false,
        LogOp::Word { .. } => false,
        LogOp::Back { .. } => false,
        LogOp::Fence => false,
        LogOp::Sync => true,
    }
}

/// How many marks an operation is: one or none.
fn marks_of(op: &LogOp) -> u32
    ensures { result ≡ (if is_mark op.now then 1 else 0) }
{
    if is_mark(op) { 1 } else { 0 }
}

/// The least and the greatest cut of a log.
pub fn cuts_of(log: &[LogOp]) -> (u32, u32)
    requires { length log.now < 2 ^ 32 }
    ensures least { result.0 ≡ least_cut log.now }
    ensures greatest { result.1 ≡ marks log.now }
{
    let mut least = 0;
    let mut count = 0;
    for op in log {
        count += marks_of(op);
        if is_sync(op) {
            least = count;
        }
    }
    (least, count)
}

/// How many operations stand up to and with a mark.
pub fn mark_end(log: &[LogOp], cut: u32) -> usize
    ensures within { result ≤ length log.now }
    ensures through { take result log.now ≡ through_mark cut log.now }
    ensures after { drop result log.now ≡ after_mark cut log.now }
{
    let mut left = cut;
    for (i, op) in log.iter().enumerate() {
        if left == 0 {
            return i;
        }
        left -= marks_of(op);
    }
    log.len()
}

/// How many operations stand before the first mark.
pub fn first_mark(log: &[LogOp]) -> usize
    ensures within { result ≤ length log.now }
    ensures until { take result log.now ≡ until_mark log.now }
{
    for (i, op) in log.iter().enumerate() {
        if is_mark(op) {
            return i;
        }
    }
    log.len()
}
