//! The records of the queue, and the operations that formatting, changing and settling it make.
use crate::queue::ROUNDS;
use pb_device_fixtures::{MAGIC, back, whole, word};
use pb_pmem::{Line, LogOp};
use std::alloc::{AllocError, Global};
use std::process::Abort;

// The lines of the records that aren't zeros: the side, the round, the place in the record and the words.
const RECORDS: [(u32, u64, usize, [u64; 8]); 11] = [
    (0, 1, 0, [1, 0, 0, 0, 0, 0, 0, 0]),
    (0, 1, 1, [1, 10, 70, 0, 0, 11, 0, 0]),
    (0, 1, 17, [1, 0, 0, 0, 0, 0, 0, 0]),
    (1, 1, 0, [1, 0, 0, 0, 0, 0, 0, 0]),
    (1, 1, 9, [1, 11, 0, 0, 0, 8, 70, 0]),
    (1, 1, 17, [1, 0, 0, 0, 0, 0, 0, 0]),
    (0, 2, 0, [2, 0, 0, 0, 0, 0, 0, 0]),
    (0, 2, 1, [2, 10, 71, 0, 0, 11, 1, 0]),
    (0, 2, 2, [1, 10, 70, 0, 0, 11, 0, 0]),
    (0, 2, 9, [2, 10, 72, 0, 0, 11, 2, 0]),
    (0, 2, 17, [3, 0, 0, 0, 0, 0, 0, 0]),
];

/// A side's record after so many rounds.
pub fn record(side: u32, round: u64) -> [Line; 18] {
    let mut lines = [Line::default(); 18];
    for (of_side, of_round, place, words) in RECORDS {
        if of_side == side && of_round == round && place < 18 {
            lines[place] = Line { words };
        }
    }
    lines
}

fn add_lines(ops: &mut Vec<LogOp>, first: u32, lines: &[Line]) -> Result<(), AllocError> {
    let mut line = first;
    for to in lines {
        ops.push(LogOp::Whole { line, to: *to })?;
        line = line.wrapping_add(1);
    }
    Ok(())
}

// The operations of a store after those that write its lines.
fn add_switch(
    ops: &mut Vec<LogOp>,
    first: u32,
    index_line: u32,
    round: u64,
) -> Result<(), AllocError> {
    ops.extend_from_slice(&[
        back(first, 18),
        LogOp::Fence,
        word(index_line, 0, round),
        back(index_line, 1),
        LogOp::Sync,
    ])
}

fn add_format(ops: &mut Vec<LogOp>) -> Result<(), AllocError> {
    add_lines(ops, 21, &record(0, 0))?;
    add_lines(ops, 57, &record(1, 0))?;
    ops.extend_from_slice(&[
        whole(1, [0; 8]),
        whole(2, [0; 8]),
        word(0, 1, 2),
        word(0, 2, 4),
        word(0, 3, 2),
        word(0, 4, 2),
        word(0, 5, 4),
        word(0, 6, 5),
        word(0, 7, 0),
        back(0, 3),
        back(21, 18),
        back(57, 18),
        LogOp::Fence,
        word(0, 0, MAGIC),
        back(0, 1),
        LogOp::Sync,
    ])
}

// The cells of the last round, and its store: of the record, which was all zeros, five lines differ.
fn add_last_round(ops: &mut Vec<LogOp>) -> Result<(), AllocError> {
    let next = record(0, 2);
    ops.extend_from_slice(&[
        whole(4, [1, 71, 0, 0, 0, 0, 0, 0]),
        back(4, 1),
        whole(3, [2, 72, 0, 0, 0, 0, 0, 0]),
        back(3, 1),
        whole(21, next[0].words),
        whole(22, next[1].words),
        whole(23, next[2].words),
        whole(30, next[9].words),
        whole(38, next[17].words),
    ])?;
    add_switch(ops, 21, 1, 2)
}

/// The 114 operations of the formatting and the changes.
pub fn queue_log(alloc: Global) -> Result<Vec<LogOp>, AllocError> {
    let mut ops = Vec::new(alloc);
    add_format(&mut ops)?;
    ops.push(whole(3, [0, 70, 0, 0, 0, 0, 0, 0]))?;
    ops.push(back(3, 1))?;
    add_lines(&mut ops, 39, &record(0, 1))?;
    add_switch(&mut ops, 39, 1, 1)?;
    add_lines(&mut ops, 75, &record(1, 1))?;
    add_switch(&mut ops, 75, 2, 1)?;
    add_last_round(&mut ops)?;
    Ok(ops)
}

/// The operations of settling in a state.
pub fn settle_ops(rt: &impl Abort, state: usize) -> [LogOp; 5] {
    assert!(rt; state < 4);
    let [puts, takes] = ROUNDS[state];
    [
        word(0, 0, MAGIC),
        word(1, 0, puts),
        word(2, 0, takes),
        back(0, 3),
        LogOp::Sync,
    ]
}
