//! Outcomes beside the history that the device's log tells.
ghost use Rattle.std.specs.Prelude.{◌≤◌};

use crate::history::{Entry, History, history_of};
use pb_image::Image;
use pb_layout::Header;
use pb_object::{Ask, Kept, Object, PlainQueue, Reply};
use pb_pmem::LogOp;
use pb_report::Outcome;
use std::alloc::Global;
use std::process::Abort;

/// The reply to a request that was applied in this run.
pub fn reply_of(rt: &impl Abort, outcome: &Outcome) -> Reply {
    match outcome {
        Outcome::New(reply) => *reply,
        _ => panic!(rt; "each request is new"),
    }
}

// Notes an entry at its place in the script, in which all clients ask in turns: it is the first one there, and the client's request before
// it was told before.
fn note_entry(rt: &impl Abort, told: &mut [Kept], clients: u64, entry: &Entry) {
    let number = entry.kept.number;
    let place = number
        .saturating_sub(1)
        .saturating_mul(clients)
        .saturating_add(u64::from(entry.client));
    assert!(rt; 1 <= number && place < told.len() as u64);
    let place = place as usize;
    assert!(rt; told[place].number == 0);
    if number > 1 {
        let before = place.saturating_sub(clients as usize);
        assert!(rt; told[before].number == number - 1);
    }
    told[place] = entry.kept;
}

// Each request is in the history once, and its outcome says the reply that it has there.
fn are_told(
    rt: &impl Abort,
    alloc: Global,
    clients: u32,
    asks: &[Ask],
    outcomes: &[Outcome],
    history: &History,
) {
    let mut told = vec![in alloc; Kept::default(); asks.len()].expect(rt, "memory");
    for entry in history.entries.iter() {
        note_entry(rt, &mut told, u64::from(clients), entry);
    }
    assert!(rt; outcomes.len() == asks.len());
    for ((ask, outcome), kept) in asks.iter().zip(outcomes.iter()).zip(told.iter()) {
        assert!(rt; kept.number == ask.number && kept.op == ask.op);
        assert!(rt; kept.reply == reply_of(rt, outcome));
    }
}

// How many operations of a log are this one.
fn count_of(log: &[LogOp], op: LogOp) -> u64 {
    log.iter().filter(|one| **one == op).count() as u64
}

/// The history that the log of a device tells on which a region was made, and a script in which all clients ask in turns was run in so
/// many rounds. Each of them has one fence and one sync, as making the region has, and tells the replies that the outcomes say.
pub fn told_by(
    rt: &impl Abort,
    alloc: Global,
    (head, device): (&Header, &Image),
    rounds: u64,
    asks: &[Ask],
    outcomes: &[Outcome],
) -> History {
    let history = history_of(rt, alloc, head, device.log());
    assert!(rt; history.rounds == rounds);
    let waits = rounds.saturating_add(1);
    assert!(rt; count_of(device.log(), LogOp::Fence) == waits);
    assert!(rt; count_of(device.log(), LogOp::Sync) == waits);
    are_told(rt, alloc, head.clients, asks, outcomes, &history);
    history
}

/// An object of a size gives the replies of a history.
pub fn object_gives<O: Object>(rt: &impl Abort, alloc: Global, size: u32, history: &History) {
    assert!(rt; 1 <= size && size <= 1024);
    let Ok(mut object) = O::fresh(alloc, size) else {
        panic!(rt; "memory");
    };
    for entry in history.entries.iter() {
        let op = entry.kept.op;
        assert!(rt; O::accepts(&op));
        assert!(rt; object.apply(&op) == entry.kept.reply);
    }
}

/// A queue of a size gives the replies of a history.
pub fn queue_gives(rt: &impl Abort, alloc: Global, size: u32, history: &History) {
    let mut queue = PlainQueue::new(alloc);
    for entry in history.entries.iter() {
        let Ok(reply) = queue.apply(size, &entry.kept.op) else {
            panic!(rt; "memory");
        };
        assert!(rt; reply == entry.kept.reply);
    }
}
