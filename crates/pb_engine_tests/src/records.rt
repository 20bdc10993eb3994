//! The records and the operations that are expected of an engine.
use crate::cases::{Case, Round, Row};
use arrayvec::ArrayVec;
use pb_device_fixtures::{MAGIC, back, whole, word};
use pb_object::{Ask, Op};
use pb_pmem::{Line, LogOp};
use std::alloc::Global;
use std::process::Abort;

// Where a client's slots begin in a record.
fn slots_of(rt: &impl Abort, lines: &[Line], client: u32) -> usize {
    assert!(rt; client < 16);
    let first = 1 + 8 * client as usize;
    assert!(rt; first + 8 <= lines.len());
    first
}

// The number that a client's next request has.
fn next_number(rt: &impl Abort, lines: &[Line], client: u32) -> u64 {
    let first = slots_of(rt, lines, client);
    assert!(rt; first < lines.len());
    lines[first].words[0].saturating_add(1)
}

// Puts a client's next request in front of its slots.
fn put(rt: &impl Abort, lines: &mut [Line], row: &Row) {
    let (client, [code, a, b, c], [reply, value, extra]) = *row;
    let number = next_number(rt, lines, client);
    let first = slots_of(rt, lines, client);
    assert!(rt; first < lines.len() && lines.len() - first >= 8);
    for slot in (1..8usize).rev() {
        lines[first + slot] = lines[first + slot - 1];
    }
    lines[first] = Line {
        words: [number, code, a, b, c, reply, value, extra],
    };
}

// Writes the object's lines, which are the last ones.
fn put_object(rt: &impl Abort, lines: &mut [Line], object: &[[u64; 8]]) {
    assert!(rt; object.len() <= lines.len());
    let first = lines.len() - object.len();
    for (place, words) in object.iter().enumerate() {
        lines[first + place] = Line { words: *words };
    }
}

/// The record after one more round.
pub fn next_record(rt: &impl Abort, alloc: Global, before: &[Line], round: &Round) -> Vec<Line> {
    let mut lines = before.to_vec(alloc).expect(rt, "memory");
    for row in round.rows {
        put(rt, &mut lines, row);
    }
    put_object(rt, &mut lines, round.object);
    assert!(rt; !lines.is_empty());
    let rounds = lines[0].words[0].saturating_add(1);
    lines[0] = Line {
        words: [rounds, 0, 0, 0, 0, 0, 0, 0],
    };
    lines
}

/// A record of so many lines in which nothing was asked yet.
pub fn first_record(rt: &impl Abort, alloc: Global, length: u32) -> Vec<Line> {
    vec![in alloc; Line::default(); length as usize].expect(rt, "memory")
}

/// The records after no round, and after each one.
pub fn records_of(rt: &impl Abort, alloc: Global, case: &Case) -> Vec<Vec<Line>> {
    let mut records = Vec::new(alloc);
    let mut last = first_record(rt, alloc, case.length);
    for round in &case.rounds {
        let next = next_record(rt, alloc, &last, round);
        records.push(last).expect(rt, "memory");
        last = next;
    }
    records.push(last).expect(rt, "memory");
    records
}

/// The requests of a round after this record.
pub fn asks_of(rt: &impl Abort, before: &[Line], round: &Round) -> ArrayVec<Ask, 16> {
    let mut asks = ArrayVec::new();
    for row in round.rows {
        let (client, [code, a, b, c], _) = *row;
        let number = next_number(rt, before, client);
        let op = Op { code, a, b, c };
        assert!(rt; asks.len() < 16);
        asks.push(Ask { client, number, op });
    }
    asks
}

// Adds an operation.
fn add(rt: &impl Abort, ops: &mut Vec<LogOp>, op: LogOp) {
    ops.push(op).expect(rt, "memory");
}

// Writes of those of these lines that differ from the ones that are known, or of all.
fn add_lines(
    rt: &impl Abort,
    ops: &mut Vec<LogOp>,
    first: u32,
    known: Option<&[Line]>,
    lines: &[Line],
) {
    let mut line = first;
    for (place, to) in lines.iter().enumerate() {
        let is_there = match known {
            Some(before) => before.get(place) == Some(to),
            None => false,
        };
        if !is_there {
            add(rt, ops, whole(line, to.words));
        }
        line = line.wrapping_add(1);
    }
}

/// Adds the operations of the formatting.
pub fn add_format(rt: &impl Abort, ops: &mut Vec<LogOp>, case: &Case, record: &[Line]) {
    let [first, _] = case.records;
    add_lines(rt, ops, first, None, record);
    add(rt, ops, whole(1, [0; 8]));
    add(rt, ops, whole(2, [0; 8]));
    let mut place = 1;
    for to in case.header {
        add(rt, ops, word(0, place, to));
        place = place.wrapping_add(1);
    }
    for op in [
        back(0, 3),
        back(first, case.length),
        LogOp::Fence,
        word(0, 0, MAGIC),
        back(0, 1),
        LogOp::Sync,
    ] {
        add(rt, ops, op);
    }
}

/// Adds the operations of a round, whose record is these lines. Those are known that the spare record holds, or none.
pub fn add_round(
    rt: &impl Abort,
    ops: &mut Vec<LogOp>,
    case: &Case,
    round: u64,
    known: Option<&[Line]>,
    lines: &[Line],
) {
    let [even, odd] = case.records;
    let first = if round % 2 == 0 { even } else { odd };
    add_lines(rt, ops, first, known, lines);
    for op in [
        back(first, case.length),
        LogOp::Fence,
        word(1, 0, round),
        back(1, 1),
        LogOp::Sync,
    ] {
        add(rt, ops, op);
    }
}

/// The operations of the formatting and of all rounds. What the spare record holds is known from the second round on.
pub fn log_of_rounds(
    rt: &impl Abort,
    alloc: Global,
    case: &Case,
    records: &[Vec<Line>],
) -> Vec<LogOp> {
    let mut ops = Vec::new(alloc);
    for (place, lines) in records.iter().enumerate() {
        if place == 0 {
            add_format(rt, &mut ops, case, lines);
        } else if place == 1 {
            add_round(rt, &mut ops, case, 1, None, lines);
        } else {
            let known = Some(records[place - 2].as_slice());
            add_round(rt, &mut ops, case, place as u64, known, lines);
        }
        assert!(rt; place < 4);
        assert_eq!(rt; ops.len(), case.moments[place].1 as usize);
    }
    ops
}

/// The operations of settling after so many rounds.
pub fn settle_ops(round: u64) -> [LogOp; 4] {
    [
        word(0, 0, MAGIC),
        word(1, 0, round),
        back(0, 3),
        LogOp::Sync,
    ]
}
