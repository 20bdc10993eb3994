//! The round of a queue: its items lie in the cells of the device.
ghost use Rattle.std.specs.Prelude.{◌≡◌, ℕ, ◌+◌, ◌*◌, ◌-◌, ◌<◌, ◌≤◌, ◌==◌, List, ◌++◌, length, vec_capacity, if◌then◌else◌};
ghost use Rattle.pb_pmem.specs.declared.line.TheConstants.{LINES};
ghost use Rattle.pb_pmem.specs.declared.log.LogOp.{LogOp};
ghost use Rattle.pb_pmem.specs.declared.line.Line.{Line};
ghost use Rattle.pb_pmem.specs.Lines.{word_of};
ghost use Rattle.pb_object.specs.History.{IsOfSide};
ghost use Rattle.pb_object.specs.Queue.{Waiting, queue_reply, next_waiting, put_reply, after_put, take_reply, after_take};
ghost use Rattle.pb_layout.specs.Header.{record_length};
ghost use Rattle.pb_layout.specs.Represents.{record_in_use};
ghost use Rattle.pb_object.specs.declared.kind.Kind.TheVariants.{Queue};
ghost use Rattle.pb_layout.specs.PutCell.{put_ops};
ghost use Rattle.pb_queue.specs.Serving.{AreServable};
ghost use Rattle.pb_round_play.specs.Serving.{HoldsQueue, IsServing, HasServedQueue};
ghost use Rattle.pb_round_play.specs.Shape.{AreWithin};

use crate::place::{cell_of, record};
use crate::rounds::Rounds;
use crate::seat::Seat;
use crate::serving::put;
use crate::settle::push;
use pb_layout::{Header, cell, count_line};
use pb_object::{Action, Answer, Ask, LAST_POSITION, Op, Reply};
use pb_pmem::{Line, LogOp};

/// A queue's ends: how many items were taken, and how many were put.
#[derive(Clone, Copy, Debug, PartialEq, Eq)]
pub struct Ends {
    pub head: u64,
    pub tail: u64,
}

/// What waits in a region after so many rounds of its sides.
pub fn ends_in(lines: &[Line], head: &Header, rounds: Rounds) -> Ends
    requires kind { head.now.kind ≡ Queue }
    requires whole { length lines.now ≡ LINES }
    ensures head { result.head ≡ word_of (record_in_use lines.now head.now 1 rounds.second) (record_length head.now - 1) 0 }
    ensures tail { result.tail ≡ word_of (record_in_use lines.now head.now 0 rounds.first) (record_length head.now - 1) 0 }
{
    Ends {
        head: last_count(record(lines, head, 1, rounds.second)),
        tail: last_count(record(lines, head, 0, rounds.first)),
    }
}

// The number in a record's last line.
fn last_count(lines: &[Line]) -> u64
    requires { 0 < length lines.now }
    ensures { result ≡ word_of lines.now (length lines.now - 1) 0 }
{
    lines[lines.len() - 1].words[0]
}

/// Applies the requests of a side one after the other, puts each with its reply in front of its client's slots, and plans the
/// calls that put the items that are put.
pub fn serve_queue(
    ends: Ends,
    side: u32,
    head: &Header,
    asks: &[Ask],
    lines: &[Line],
    before: &[Line],
    next: &mut [Line],
    seats: &mut [Seat],
    plan: &mut Vec<LogOp>,
)
    requires kind { head.now.kind ≡ Queue }
    requires whole { length lines.now ≡ LINES }
    requires before { length before.now ≡ record_length head.now }
    requires next { length next.old ≡ record_length head.now }
    requires seats { length seats.old ≡ 16 }
    requires asks { AreServable side before.now asks.now }
    requires room { length plan.old.items + 2 * length asks.now ≤ vec_capacity plan.old }
    requires within { AreWithin plan.old.items }
    ensures next { length next.new ≡ record_length head.now }
    ensures seats { length seats.new ≡ 16 }
    ensures few { length plan.new.items ≤ length plan.old.items + 2 * length asks.now }
    ensures within { AreWithin plan.new.items }
    ensures capacity { vec_capacity plan.old ≤ vec_capacity plan.new }
    ensures served { (start : Waiting)
        → HoldsQueue head.now lines.now ends start
        → HasServedQueue head.now before.now side start asks.now next.old next.new seats.old seats.new plan.old.items plan.new.items }
{
    let mut ends = ends;
    for ask in asks {
        let reply = apply(&mut ends, head, &ask.op, lines, plan);
        put(ask, reply, before, next, seats);
    }
    let last = next.len() - 1;
    next[last] = count_line(count_of(side, &ends));
}

// The count that a side's record has.
fn count_of(side: u32, ends: &Ends) -> u64
    ensures { result ≡ (if side == 0 then ends.now.tail else ends.now.head) }
{
    if side == 0 { ends.tail } else { ends.head }
}

fn apply(ends: &mut Ends, head: &Header, op: &Op, lines: &[Line], plan: &mut Vec<LogOp>) -> Reply
    requires kind { head.now.kind ≡ Queue }
    requires whole { length lines.now ≡ LINES }
    requires room { length plan.old.items + 2 ≤ vec_capacity plan.old }
    requires within { AreWithin plan.old.items }
    ensures few { length plan.new.items ≤ length plan.old.items + 2 }
    ensures within { AreWithin plan.new.items }
    ensures capacity { vec_capacity plan.old ≤ vec_capacity plan.new }
    ensures applied { (side : ℕ) (start queue : Waiting) (first : List LogOp)
        → IsOfSide side op.now
        → IsServing head.now lines.now side start first ends.old plan.old.items queue
        → (result ≡ queue_reply head.now.size queue op.now)
        × IsServing head.now lines.now side start first ends.new plan.new.items (next_waiting head.now.size queue op.now) }
{
    match Action::from_code(op.code) {
        Some(Action::QueuePut) => put_item(ends, head, op.a, plan),
        Some(Action::QueueTake) => take_item(ends, head, lines),
        _ => Reply::default(),
    }
}

fn put_item(ends: &mut Ends, head: &Header, item: u64, plan: &mut Vec<LogOp>) -> Reply
    requires kind { head.now.kind ≡ Queue }
    requires room { length plan.old.items + 2 ≤ vec_capacity plan.old }
    requires within { AreWithin plan.old.items }
    ensures few { length plan.new.items ≤ length plan.old.items + 2 }
    ensures within { AreWithin plan.new.items }
    ensures capacity { vec_capacity plan.old ≤ vec_capacity plan.new }
    ensures put { (lines : List Line) (start queue : Waiting) (first : List LogOp)
        → IsServing head.now lines 0 start first ends.old plan.old.items queue
        → (result ≡ put_reply head.now.size queue)
        × IsServing head.now lines 0 start first ends.new plan.new.items (after_put head.now.size queue item) }
{
    let tail = ends.tail;
    if tail.saturating_sub(ends.head) >= u64::from(head.size) {
        return Reply::new(Answer::Full, 0, 0);
    }
    if tail >= LAST_POSITION {
        return Reply::new(Answer::Worn, 0, 0);
    }
    plan_cell(plan, head, tail, item);
    ends.tail = tail + 1;
    Reply::new(Answer::At, tail, 0)
}

// The cell of a position is written, and given to the device.
fn plan_cell(plan: &mut Vec<LogOp>, head: &Header, position: u64, item: u64)
    requires kind { head.now.kind ≡ Queue }
    requires room { length plan.old.items + 2 ≤ vec_capacity plan.old }
    requires within { AreWithin plan.old.items }
    ensures plan { plan.new.items ≡ plan.old.items ++ put_ops head.now position item }
    ensures within { AreWithin plan.new.items }
    ensures capacity { vec_capacity plan.old ≤ vec_capacity plan.new }
{
    let line = cell_of(head, position);
    let to = cell(position, item);
    push(plan, LogOp::Whole { line, to });
    push(
        plan,
        LogOp::Back {
            first: line,
            count: 1,
        },
    );
}

fn take_item(ends: &mut Ends, head: &Header, lines: &[Line]) -> Reply
    requires kind { head.now.kind ≡ Queue }
    requires whole { length lines.now ≡ LINES }
    ensures taken { (start queue : Waiting) (first plan : List LogOp)
        → IsServing head.now lines.now 1 start first ends.old plan queue
        → (result ≡ take_reply queue.taken queue.items)
        × IsServing head.now lines.now 1 start first ends.new plan (after_take queue.taken queue.items) }
{
    let position = ends.head;
    if position >= ends.tail {
        return Reply::new(Answer::Empty, 0, 0);
    }
    let item = lines[cell_of(head, position) as usize].words[1];
    ends.head = position + 1;
    Reply::new(Answer::Item, item, position)
}
