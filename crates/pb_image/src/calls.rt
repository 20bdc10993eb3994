//! Counts of calls, and which of them fail.
ghost use Rattle.std.specs.Prelude.{◌≡◌, is_ok, is_none};
ghost use Rattle.pb_image.specs.Fails.{count_of, counted, is_for, is_due, failure, added_by, faults_after};

use crate::fail::{Call, Fail};
use pb_crash::{Leaves, left_by};
use pb_pmem::{LogOp, PmemFault};

/// How many calls of each kind there were, and how many in all. Each count stands still at its last value.
#[derive(Clone, Copy, Debug, PartialEq, Eq)]
pub struct Calls {
    pub read: u64,
    pub write: u64,
    pub set_word: u64,
    pub write_back: u64,
    pub fence: u64,
    pub sync: u64,
    pub any: u64,
}

/// No calls yet.
pub const NO_CALLS: Calls = Calls {
    read: 0,
    write: 0,
    set_word: 0,
    write_back: 0,
    fence: 0,
    sync: 0,
    any: 0,
};

/// How many calls of a kind there were.
fn count_of(calls: &Calls, call: Call) -> u64
    ensures { result ≡ count_of call calls.now }
{
    match call {
        Call::Read => calls.read,
        Call::Write => calls.write,
        Call::SetWord => calls.set_word,
        Call::WriteBack => calls.write_back,
        Call::Fence => calls.fence,
        Call::Sync => calls.sync,
        Call::Any => calls.any,
    }
}

/// Counts one more call of a kind.
pub fn count(calls: &mut Calls, call: Call)
    ensures { calls.new ≡ counted call calls.old }
{
    match call {
        Call::Read => calls.read = calls.read.saturating_add(1),
        Call::Write => calls.write = calls.write.saturating_add(1),
        Call::SetWord => calls.set_word = calls.set_word.saturating_add(1),
        Call::WriteBack => calls.write_back = calls.write_back.saturating_add(1),
        Call::Fence => calls.fence = calls.fence.saturating_add(1),
        Call::Sync => calls.sync = calls.sync.saturating_add(1),
        Call::Any => {}
    }
    calls.any = calls.any.saturating_add(1);
}

fn is_for(kind: Call, call: Call) -> bool
    ensures { result ≡ is_for kind call }
{
    kind == Call::Any || kind == call
}

fn is_due(fail: &Fail, call: Call, calls: &Calls) -> bool
    ensures { result ≡ is_due call calls.now fail.now }
{
    let nth = fail.nth;
    is_for(fail.call, call) && nth > 0 && count_of(calls, fail.call) == nth - 1
}

/// How the next call of a kind fails by the list, where it does.
pub fn failure(fails: &[Fail], call: Call, calls: &Calls) -> Option<Leaves>
    ensures { result ≡ failure call calls.now fails.now }
{
    fails
        .iter()
        .find(|fail| is_due(fail, call, calls))
        .map(|fail| fail.how)
}

/// The operation that a call adds to the log, where it adds one.
pub fn added_by(op: LogOp, how: Option<Leaves>) -> Option<LogOp>
    ensures { result ≡ added_by op how }
{
    match how {
        None => Some(op),
        Some(how) => left_by(how, op),
    }
}

/// The count of faults after a call.
pub fn faults_after(how: Option<Leaves>, faults: u64) -> u64
    ensures { result ≡ faults_after how faults }
{
    match how {
        None => faults,
        Some(_) => faults.saturating_add(1),
    }
}

/// What a call answers.
pub fn answer(how: Option<Leaves>) -> Result<(), PmemFault>
    ensures { is_ok result ≡ is_none how }
{
    match how {
        None => Ok(()),
        Some(_) => Err(PmemFault),
    }
}
