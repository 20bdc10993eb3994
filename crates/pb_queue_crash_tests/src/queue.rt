//! A queue of two items for two clients: it is formatted, and takes a put, a take, and a round of two puts.
ghost use Rattle.std.specs.Prelude.{◌≡◌, length};
ghost use Rattle.pb_pmem.specs.Lines.{word_of};

use crate::operations::{queue_log, record};
use pb_image::Image;
use pb_layout::{Header, record_of};
use pb_object::Kind;
use pb_pair::{Pair, Refused, Why};
use pb_pmem::{DeviceFault, Line};
use pb_region_fixtures::{open, store};
use std::alloc::Global;
use std::process::Abort;

/// The header of the queue. A record has 18 lines: those of the puts begin at the lines 21 and 39, and those of the takes at 57 and 75.
pub const HEAD: Header = Header {
    kind: Kind::Queue,
    clients: 2,
    size: 2,
};

/// A call that changes the queue.
#[derive(Clone, Copy)]
pub enum Change {
    /// The cell of a position is put.
    Cell { position: u64, value: u64 },
    /// The next record of a side is stored.
    Store { side: u32 },
}

/// A change, and its place in the log.
#[derive(Clone, Copy)]
pub struct Row {
    pub change: Change,
    /// The number of operations before it, and with it.
    pub from: usize,
    pub to: usize,
    /// The number of operations before its index word, where it has one.
    pub switch: Option<usize>,
    /// The states before and after it.
    pub before: usize,
    pub after: usize,
}

/// The changes after the formatting, in their order.
pub const ROWS: [Row; 6] = [
    Row {
        change: Change::Cell {
            position: 0,
            value: 70,
        },
        from: 52,
        to: 54,
        switch: None,
        before: 0,
        after: 0,
    },
    Row {
        change: Change::Store { side: 0 },
        from: 54,
        to: 77,
        switch: Some(74),
        before: 0,
        after: 1,
    },
    Row {
        change: Change::Store { side: 1 },
        from: 77,
        to: 100,
        switch: Some(97),
        before: 1,
        after: 2,
    },
    Row {
        change: Change::Cell {
            position: 1,
            value: 71,
        },
        from: 100,
        to: 102,
        switch: None,
        before: 2,
        after: 2,
    },
    Row {
        change: Change::Cell {
            position: 2,
            value: 72,
        },
        from: 102,
        to: 104,
        switch: None,
        before: 2,
        after: 2,
    },
    Row {
        change: Change::Store { side: 0 },
        from: 104,
        to: 114,
        switch: Some(111),
        before: 2,
        after: 3,
    },
];

/// How many rounds of puts and of takes there were in each state.
pub const ROUNDS: [[u64; 2]; 4] = [[0, 0], [1, 0], [1, 1], [2, 1]];

// The items that wait: the state, the position and the value.
const ITEMS: [(usize, u64, u64); 3] = [(1, 0, 70), (3, 1, 71), (3, 2, 72)];

/// Formats a device as the queue.
pub fn format(
    rt: &impl Abort,
    alloc: Global,
    device: Image,
) -> Result<Pair<Image>, Refused<Image>> {
    let first = record(0, 0);
    let second = record(1, 0);
    assert!(rt; record_of(&HEAD, 0, 0, &first).is_ok());
    assert!(rt; record_of(&HEAD, 1, 0, &second).is_ok());
    Pair::format(alloc, device, &HEAD, &first, &second)
}

/// Formats a device as the queue, whose calls don't fail in that.
pub fn formatted(rt: &impl Abort, alloc: Global, device: Image) -> Pair<Image> {
    match format(rt, alloc, device) {
        Ok(pair) => pair,
        Err(_) => panic!(rt; "the queue isn't formatted"),
    }
}

// The count in the last line of a record.
fn count(rt: &impl Abort, lines: &[Line]) -> u64
    ensures long { length lines.now ≡ 18 }
    ensures count { result ≡ word_of lines.now 17 0 }
{
    assert!(rt; lines.len() == 18);
    lines[17].words[0]
}

fn put_cell(
    rt: &impl Abort,
    pair: &mut Pair<Image>,
    position: u64,
    value: u64,
) -> Result<(), DeviceFault> {
    assert!(rt; pair.sure());
    assert!(rt; pair.header() == HEAD);
    let tail = count(rt, pair.lines_of(0));
    let taken = count(rt, pair.lines_of(1));
    assert!(rt; tail <= position);
    assert!(rt; taken < 99);
    assert!(rt; position < taken + 2);
    pair.put_cell(position, value)
}

fn store_next(rt: &impl Abort, pair: &mut Pair<Image>, side: u32) -> Result<(), DeviceFault> {
    assert!(rt; pair.header() == HEAD);
    assert!(rt; side < 2);
    let round = pair.round(side);
    assert!(rt; round < 2);
    store(pair, side, &record(side, round + 1)).expect(rt, "a next record")
}

/// Makes a change.
pub fn make(rt: &impl Abort, pair: &mut Pair<Image>, change: Change) -> Result<(), DeviceFault> {
    match change {
        Change::Cell { position, value } => put_cell(rt, pair, position, value),
        Change::Store { side } => store_next(rt, pair, side),
    }
}

/// Reads the cell of a position, which has this value.
pub fn has_cell(rt: &impl Abort, pair: &mut Pair<Image>, position: u64, value: u64) -> bool {
    assert!(rt; pair.header() == HEAD);
    let words = [position, value, 0, 0, 0, 0, 0, 0];
    pair.read_cell(position) == Ok(Line { words })
}

// The records of a state are in use.
fn has_records(rt: &impl Abort, pair: &Pair<Image>, state: usize) -> bool {
    assert!(rt; pair.header() == HEAD && state < 4);
    let [puts, takes] = ROUNDS[state];
    pair.round(0) == puts
        && pair.round(1) == takes
        && pair.lines_of(0) == record(0, puts).as_slice()
        && pair.lines_of(1) == record(1, takes).as_slice()
}

/// A pair tells the records of a state, and its items.
pub fn tells(rt: &impl Abort, pair: &mut Pair<Image>, state: usize) -> bool {
    if !has_records(rt, pair, state) {
        return false;
    }
    for (of_state, position, value) in ITEMS {
        if of_state == state && !has_cell(rt, pair, position, value) {
            return false;
        }
    }
    true
}

/// The state in which an opening finds a device.
pub fn opened(rt: &impl Abort, alloc: Global, device: Image) -> Result<usize, Why> {
    let mut pair = open(alloc, device)?;
    for state in 0..4 {
        if tells(rt, &mut pair, state) {
            return Ok(state);
        }
    }
    panic!(rt; "no state of the queue is found")
}

/// Formats a device of zeros, and makes the changes.
pub fn changed(rt: &impl Abort, alloc: Global) -> Image {
    let device = Image::zero(alloc, 128).expect(rt, "memory");
    let mut pair = formatted(rt, alloc, device);
    for row in ROWS {
        assert!(rt; tells(rt, &mut pair, row.before));
        assert!(rt; make(rt, &mut pair, row.change).is_ok());
        assert!(rt; tells(rt, &mut pair, row.after));
    }
    pair.close()
}

#[test]
fn the_calls_make_the_operations(rt: HostRuntime) {
    let device = changed(&rt, rt.alloc());
    let log = queue_log(rt.alloc()).expect(&rt, "memory");
    assert!(rt; log.len() == 114 && device.log() == log.as_slice());
}
