//! The image that a crash leaves, in place.
ghost use Rattle.std.specs.Prelude.{◌≡◌, ℕ, ◌+◌, ◌≤◌, ◌<◌, List, [], ◌++◌, length, drop, slice_index, IsTrue, if◌then◌else◌};
ghost use Rattle.std.specs.List.{list_all};
ghost use Rattle.pb_pmem.specs.declared.line.TheConstants.{LINES};
ghost use Rattle.pb_pmem.specs.declared.log.LogOp.{LogOp};
ghost use Rattle.pb_pmem.specs.Contents.{applied, contents};
ghost use Rattle.pb_pmem.specs.Crash.{is_back_of, line_written, is_backed, backed_writes, unbacked_writes};
ghost use Rattle.pb_crash.specs.Backs.{HasLastBacks, last_back};
ghost use Rattle.pb_crash.specs.Picked.{flood_of, flooded, with_loose, picked};
ghost use Rattle.pb_crash.specs.Within.{is_within};

use crate::cuts::{first_mark, mark_end};
use crate::lines::{apply, filled};
use pb_pmem::{Line, LogOp};

/// Makes of the lines the image that a pick chooses among those that a crash at a cut of the log may leave. Pick 0 leaves
/// nothing of the loose writes, pick 1 all of them, and a greater pick fills with itself each line that one of them wrote
/// whole, and leaves the others. It takes no memory: `backs` is to work with, a place for each line, whatever it holds.
pub fn leave_image(lines: &mut [Line], log: &[LogOp], cut: u32, pick: u64, backs: &mut [usize])
    requires whole { length lines.old ≡ LINES }
    requires within { IsTrue (list_all is_within log.now) }
    requires backs { length backs.old ≡ LINES }
    ensures image { lines.new ≡ picked lines.old log.now cut pick }
    ensures backs { length backs.new ≡ LINES }
{
    let (reached, after) = log.split_at(mark_end(log, cut));
    let next = after.split_at(first_mark(after)).0;
    note_backs(backs, reached);
    leave_settled(lines, reached, backs);
    leave_loose(lines, reached, next, backs, pick);
}

/// Notes for each line the place of the last `Back` of it, or 0 where there is none: what is written there is no write.
fn note_backs(backs: &mut [usize], log: &[LogOp])
    requires whole { length backs.old ≡ LINES }
    requires within { IsTrue (list_all is_within log.now) }
    ensures backs { HasLastBacks log.now backs.new }
    ensures whole { length backs.new ≡ LINES }
{
    note_none(backs);
    for place in 0..log.len() {
        note_one(backs, place, &log[place]);
    }
}

fn note_none(backs: &mut [usize])
    ensures whole { length backs.new ≡ length backs.old }
    ensures none { (line : ℕ) → slice_index backs.new line ≡ 0 }
{
    for line in 0..backs.len() {
        backs[line] = 0;
    }
}

fn note_one(backs: &mut [usize], place: usize, op: &LogOp)
    requires whole { length backs.old ≡ LINES }
    requires within { IsTrue (is_within op.now) }
    ensures whole { length backs.new ≡ LINES }
    ensures noted { (line : ℕ) → line < LINES → slice_index backs.new line ≡ (if is_back_of line op.now then place else slice_index backs.old line) }
{
    if let LogOp::Back { first, count } = *op {
        note_back(backs, place, first, count);
    }
}

fn note_back(backs: &mut [usize], place: usize, first: u32, count: u32)
    requires whole { length backs.old ≡ LINES }
    requires within { first + count ≤ LINES }
    ensures whole { length backs.new ≡ LINES }
    ensures noted { (line : ℕ) → slice_index backs.new line ≡ last_back place first count backs.old line }
{
    for line in first..first + count {
        backs[line as usize] = place;
    }
}

/// Whether the operation at a place is a write that a `Back` of its line stands after.
fn is_settled(backs: &[usize], place: usize, op: &LogOp) -> bool
    requires whole { length backs.now ≡ LINES }
    requires within { IsTrue (is_within op.now) }
    ensures { (log : List LogOp) → HasLastBacks log backs.now → result ≡ is_backed (line_written op.now) (drop (place + 1) log) }
{
    match *op {
        LogOp::Whole { line, .. } => place < backs[line as usize],
        LogOp::Word { line, .. } => place < backs[line as usize],
        LogOp::Back { .. } => false,
        LogOp::Fence => false,
        LogOp::Sync => false,
    }
}

/// Does the settled writes of a log.
fn leave_settled(lines: &mut [Line], log: &[LogOp], backs: &[usize])
    requires whole { length lines.old ≡ LINES }
    requires within { IsTrue (list_all is_within log.now) }
    requires backs { HasLastBacks log.now backs.now }
    requires all { length backs.now ≡ LINES }
    ensures { lines.new ≡ contents lines.old (backed_writes log.now) }
{
    for place in 0..log.len() {
        let op = log[place];
        let settled = is_settled(backs, place, &op);
        settle_one(lines, settled, &op);
    }
}

fn settle_one(lines: &mut [Line], settled: bool, op: &LogOp)
    requires whole { length lines.old ≡ LINES }
    requires within { IsTrue (is_within op.now) }
    ensures { lines.new ≡ (if settled then applied op.now lines.old else lines.old) }
{
    if settled {
        apply(lines, op);
    }
}

fn flood_unless(lines: &mut [Line], settled: bool, op: &LogOp, value: u64)
    requires whole { length lines.old ≡ LINES }
    requires within { IsTrue (is_within op.now) }
    ensures { lines.new ≡ (if settled then lines.old else contents lines.old (flood_of value op.now [])) }
{
    if !settled {
        flood_one(lines, op, value);
    }
}

/// Leaves what a pick leaves of the loose writes: those of a log that aren't settled, and all of the operations after it.
fn leave_loose(lines: &mut [Line], log: &[LogOp], next: &[LogOp], backs: &[usize], pick: u64)
    requires whole { length lines.old ≡ LINES }
    requires within { IsTrue (list_all is_within log.now) }
    requires next_within { IsTrue (list_all is_within next.now) }
    requires backs { HasLastBacks log.now backs.now }
    requires all { length backs.now ≡ LINES }
    ensures { lines.new ≡ with_loose pick (unbacked_writes log.now ++ next.now) lines.old }
{
    if pick == 0 {
        return;
    }
    apply_loose(lines, log, backs);
    apply_all(lines, next);
    if pick == 1 {
        return;
    }
    flood_loose(lines, log, backs, pick);
    flood(lines, next, pick);
}

fn apply_loose(lines: &mut [Line], log: &[LogOp], backs: &[usize])
    requires whole { length lines.old ≡ LINES }
    requires within { IsTrue (list_all is_within log.now) }
    requires backs { HasLastBacks log.now backs.now }
    requires all { length backs.now ≡ LINES }
    ensures { lines.new ≡ contents lines.old (unbacked_writes log.now) }
{
    for place in 0..log.len() {
        let op = log[place];
        let settled = is_settled(backs, place, &op);
        settle_one(lines, !settled, &op);
    }
}

fn flood_loose(lines: &mut [Line], log: &[LogOp], backs: &[usize], value: u64)
    requires whole { length lines.old ≡ LINES }
    requires within { IsTrue (list_all is_within log.now) }
    requires backs { HasLastBacks log.now backs.now }
    requires all { length backs.now ≡ LINES }
    ensures { lines.new ≡ contents lines.old (flooded value (unbacked_writes log.now)) }
{
    for place in 0..log.len() {
        let op = log[place];
        let settled = is_settled(backs, place, &op);
        flood_unless(lines, settled, &op, value);
    }
}

fn apply_all(lines: &mut [Line], ops: &[LogOp])
    requires whole { length lines.old ≡ LINES }
    requires within { IsTrue (list_all is_within ops.now) }
    ensures { lines.new ≡ contents lines.old ops.now }
{
    for op in ops {
        apply(lines, op);
    }
}

fn flood(lines: &mut [Line], ops: &[LogOp], value: u64)
    requires whole { length lines.old ≡ LINES }
    requires within { IsTrue (list_all is_within ops.now) }
    ensures { lines.new ≡ contents lines.old (flooded value ops.now) }
{
    for op in ops {
        flood_one(lines, op, value);
    }
}

/// Fills the line that an operation writes whole, if it is one that does.
fn flood_one(lines: &mut [Line], op: &LogOp, value: u64)
    requires whole { length lines.old ≡ LINES }
    requires within { IsTrue (is_within op.now) }
    ensures { lines.new ≡ contents lines.old (flood_of value op.now []) }
{
    if let LogOp::Whole { line, .. } = *op {
        lines[line as usize] = filled(value);
    }
}
