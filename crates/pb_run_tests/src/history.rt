//! The history that a device's log tells: its rounds, and the requests that they recorded.
ghost use Rattle.std.specs.Prelude.{◌≡◌, ◌<◌};
ghost use Rattle.pb_object.specs.Standing.{side_count};

use pb_layout::{Header, client_of, record_line};
use pb_object::{KEPT_REQUESTS, Kept, Kind};
use pb_pmem::{LINES, Line, LogOp};
use std::alloc::Global;
use std::process::Abort;

/// A request that a round recorded, with its reply.
#[derive(Clone, Copy)]
pub struct Entry {
    pub client: u32,
    pub kept: Kept,
}

/// How many rounds there were, and the requests that they recorded: round by round, and in a round by rising clients.
#[derive(Drop)]
pub struct History {
    pub rounds: u64,
    pub entries: Vec<Entry>,
}

// How many sides a kind has.
fn sides(kind: Kind) -> u32
    ensures { result ≡ side_count kind }
{
    match kind {
        Kind::Map => 1,
        Kind::Stack => 1,
        Kind::Heap => 1,
        Kind::Queue => 2,
    }
}

// A client's newest request in one of a side's two records.
fn newest(
    rt: &impl Abort,
    lines: &[Line],
    head: &Header,
    side: u32,
    round: u64,
    client: u32,
) -> Kept
    requires { side < side_count head.now.kind }
{
    let record = record_line(head, side, (round % 2) as u32);
    let slot = client.saturating_mul(KEPT_REQUESTS).saturating_add(1);
    let place = record.saturating_add(slot) as usize;
    assert!(rt; place < lines.len());
    match client_of(head.kind, side, &lines[place]) {
        Some(kept) => kept,
        None => panic!(rt; "a slot"),
    }
}

// Adds a round of a side, over the lines as they are before its index word.
fn add_round(
    rt: &impl Abort,
    lines: &[Line],
    head: &Header,
    side: u32,
    round: u64,
    history: &mut History,
)
    requires { side < side_count head.now.kind }
{
    history.rounds = history.rounds.saturating_add(1);
    for client in 0..head.clients {
        let before = newest(rt, lines, head, side, round.saturating_add(1), client);
        let kept = newest(rt, lines, head, side, round, client);
        if kept.number != before.number {
            history
                .entries
                .push(Entry { client, kept })
                .expect(rt, "memory");
        }
    }
}

// Adds the round that a word puts into force, where it is an index word. Each of them raises its side's round by one.
fn note_word(
    rt: &impl Abort,
    lines: &[Line],
    head: &Header,
    line: u32,
    to: u64,
    history: &mut History,
) {
    if line == 0 {
        return;
    }
    let side = line - 1;
    if side < sides(head.kind) {
        let place = line as usize;
        assert!(rt; place < lines.len());
        assert!(rt; to == lines[place].words[0].saturating_add(1));
        add_round(rt, lines, head, side, to, history);
    }
}

// Does an operation to the lines.
fn apply(rt: &impl Abort, lines: &mut [Line], op: &LogOp) {
    match *op {
        LogOp::Whole { line, to } => {
            let place = line as usize;
            assert!(rt; place < lines.len());
            lines[place] = to;
        }
        LogOp::Word { line, word, to } => {
            let place = line as usize;
            assert!(rt; place < lines.len() && word < 8);
            let line = &mut lines[place];
            line.words[word as usize] = to;
        }
        LogOp::Back { .. } => {}
        LogOp::Fence => {}
        LogOp::Sync => {}
    }
}

/// The history that the log of a device of zeros tells, on which a region was made.
pub fn history_of(rt: &impl Abort, alloc: Global, head: &Header, log: &[LogOp]) -> History {
    let mut lines = vec![in alloc; Line::default(); LINES as usize].expect(rt, "memory");
    let mut history = History {
        rounds: 0,
        entries: Vec::new(alloc),
    };
    for op in log {
        if let LogOp::Word { line, word, to } = *op {
            if word == 0 {
                note_word(rt, &lines, head, line, to, &mut history);
            }
        }
        apply(rt, &mut lines, op);
    }
    history
}
