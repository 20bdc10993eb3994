//! The calls that store a record.
ghost use Rattle.std.specs.Prelude.{◌≡◌, ◌+◌, ◌<◌, ◌≤◌, Some, [], ◌∷◌, ◌++◌, length, if◌then◌else◌, vec_capacity};
ghost use Rattle.pb_pmem.specs.Count.{last_count};
ghost use Rattle.pb_pmem.specs.declared.line.TheConstants.{LINES};
ghost use Rattle.pb_pmem.specs.declared.log.LogOp.{LogOp};
ghost use Rattle.pb_object.specs.Standing.{side_count};
ghost use Rattle.pb_layout.specs.Header.{record_length};
ghost use Rattle.pb_layout.specs.RegionOps.{is_same, changes_from, commit_ops, store_over};
ghost use Rattle.pb_layout.specs.Represents.{record_in_use};
ghost use Rattle.pb_round_play.specs.Shape.{AreWithin};

use crate::place::{place_of, record};
use crate::settle::push;
use pb_layout::{Header, record_len};
use pb_pmem::{Line, LogOp};

/// Adds to a plan the calls of a store after so many rounds of a side: those lines of the record that differ are written to the spare
/// one, which is given to the device and fenced; then the side's index word switches to it.
pub fn plan_store(
    plan: &mut Vec<LogOp>,
    head: &Header,
    side: u32,
    rounds: u64,
    lines: &[Line],
    next: &[Line],
)
    requires side { side < side_count head.now.kind }
    requires rounds { rounds < last_count }
    requires whole { length lines.now ≡ LINES }
    requires long { length next.now ≡ record_length head.now }
    requires room { length plan.old.items + record_length head.now + 5 ≤ vec_capacity plan.old }
    requires within { AreWithin plan.old.items }
    ensures plan { plan.new.items
        ≡ plan.old.items ++ store_over head.now side rounds (Some (record_in_use lines.now head.now side (rounds + 1))) next.now }
    ensures within { AreWithin plan.new.items }
    ensures capacity { vec_capacity plan.old ≤ vec_capacity plan.new }
{
    let after = rounds + 1;
    let first = place_of(head, side, after);
    plan_changes(plan, first, record(lines, head, side, after), next);
    push(
        plan,
        LogOp::Back {
            first,
            count: record_len(head),
        },
    );
    push(plan, LogOp::Fence);
    plan_commit(plan, side, after);
}

// Those lines that differ from the ones that are there are written.
fn plan_changes(plan: &mut Vec<LogOp>, first: u32, before: &[Line], lines: &[Line])
    requires same { length before.now ≡ length lines.now }
    requires place { first + length lines.now ≤ LINES }
    requires room { length plan.old.items + length lines.now ≤ vec_capacity plan.old }
    requires within { AreWithin plan.old.items }
    ensures plan { plan.new.items ≡ plan.old.items ++ changes_from first before.now lines.now }
    ensures few { length plan.new.items ≤ length plan.old.items + length lines.now }
    ensures within { AreWithin plan.new.items }
    ensures capacity { vec_capacity plan.old ≤ vec_capacity plan.new }
{
    for place in 0..lines.len() {
        plan_change(plan, first + place as u32, &before[place], lines[place]);
    }
}

fn plan_change(plan: &mut Vec<LogOp>, line: u32, before: &Line, to: Line)
    requires place { line < LINES }
    requires room { length plan.old.items < vec_capacity plan.old }
    requires within { AreWithin plan.old.items }
    ensures plan { plan.new.items ≡ plan.old.items ++ (if is_same before.now to then [] else LogOp.Whole line to ∷ []) }
    ensures few { length plan.new.items ≤ length plan.old.items + 1 }
    ensures within { AreWithin plan.new.items }
    ensures capacity { vec_capacity plan.old ≤ vec_capacity plan.new }
{
    if before.words != to.words {
        push(plan, LogOp::Whole { line, to });
    }
}

// A side's index word is written, given to the device and synced.
fn plan_commit(plan: &mut Vec<LogOp>, side: u32, index: u64)
    requires side { side < 2 }
    requires room { length plan.old.items + 3 ≤ vec_capacity plan.old }
    requires within { AreWithin plan.old.items }
    ensures plan { plan.new.items ≡ plan.old.items ++ commit_ops side index }
    ensures within { AreWithin plan.new.items }
    ensures capacity { vec_capacity plan.old ≤ vec_capacity plan.new }
{
    push(
        plan,
        LogOp::Word {
            line: 1 + side,
            word: 0,
            to: index,
        },
    );
    push(
        plan,
        LogOp::Back {
            first: 1 + side,
            count: 1,
        },
    );
    push(plan, LogOp::Sync);
}
