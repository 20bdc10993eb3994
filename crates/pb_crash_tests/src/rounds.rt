//! The history that a log of the worked region tells, by the places of its operations. The device began with zeros.
use crate::logs::{device, log};
use pb_image::Image;
use pb_layout::client_of;
use pb_object::{Kept, Kind};
use pb_pmem::LogOp;
use pb_region_fixtures::{GET, PUT};
use std::alloc::Global;
use std::process::Abort;

/// A round that a log tells.
#[derive(Clone, Copy, PartialEq, Eq)]
pub struct ToldRound {
    /// The number of operations up to and with its index word.
    pub word: usize,
    /// The number of operations up to and with the first `Sync` after a `Back` of the index line after the word.
    pub moment: Option<usize>,
    /// Its entry of the one client.
    pub entry: Option<Kept>,
}

impl ToldRound {
    /// Whether the index word is among the first `moment` operations.
    pub fn is_there(&self, moment: usize) -> bool {
        self.word <= moment
    }

    /// Whether the round is sealed at a moment.
    pub fn is_sealed(&self, moment: usize) -> bool {
        match self.moment {
            Some(sealed) => sealed <= moment,
            None => false,
        }
    }
}

// The entry that an index puts in force: the client's newest request in the record of that parity, where the number there isn't that of
// the other record.
fn entry(before: &Image, index: u64) -> Option<Kept> {
    let lines = [before.line(10), before.line(20)];
    if lines[0].words[0] == lines[1].words[0] {
        return None;
    }
    client_of(Kind::Map, 0, &lines[(index % 2) as usize])
}

// The operation gives the index line to the device.
fn gives(op: &LogOp) -> bool {
    match *op {
        LogOp::Back { first, count } => first <= 1 && 1 - first < count,
        _ => false,
    }
}

// The first moment with a `Sync` after a `Back` of the index line, both after the first `word` operations.
fn sealed_after(log: &[LogOp], word: usize) -> Option<usize> {
    let mut given = false;
    for (place, op) in log.iter().enumerate() {
        if place >= word {
            if given && *op == LogOp::Sync {
                return Some(place.wrapping_add(1));
            }
            given = given || gives(op);
        }
    }
    None
}

/// The rounds that a log tells, in the order of their index words: those that raise word 0 of line 1 by one.
pub fn told_rounds(rt: &impl Abort, alloc: Global, log: &[LogOp]) -> Vec<ToldRound> {
    let mut rounds = Vec::new(alloc);
    for place in 0..log.len() {
        if let Some(round) = told_at(rt, alloc, log, place) {
            rounds.push(round).expect(rt, "memory");
        }
    }
    rounds
}

// The round whose index word stands at a place.
fn told_at(rt: &impl Abort, alloc: Global, log: &[LogOp], place: usize) -> Option<ToldRound> {
    assert!(rt; place < log.len());
    let to = index_in(&log[place])?;
    let before = device(rt, alloc, log.split_at(place).0);
    if to != before.line(1).words[0].wrapping_add(1) {
        return None;
    }
    let word = place.wrapping_add(1);
    Some(ToldRound {
        word,
        moment: sealed_after(log, word),
        entry: entry(&before, to),
    })
}

// What an operation writes into word 0 of line 1.
fn index_in(op: &LogOp) -> Option<u64> {
    match *op {
        LogOp::Word {
            line: 1,
            word: 0,
            to,
        } => Some(to),
        _ => None,
    }
}

// The rounds of the worked log by a moment.
fn worked_rounds(rt: &impl Abort, alloc: Global, moment: usize) -> Vec<ToldRound> {
    let mut rounds = Vec::new(alloc);
    // The operation that is the index word, the moment at which it is sealed, and the entry.
    for (word, sealed, entry) in [(38, 40, PUT), (47, 49, GET)] {
        if word <= moment {
            let round = ToldRound {
                word,
                moment: if sealed <= moment { Some(sealed) } else { None },
                entry: Some(entry),
            };
            rounds.push(round).expect(rt, "memory");
        }
    }
    rounds
}

// The first so many worked operations tell those rounds.
fn tells_its_rounds(rt: &impl Abort, alloc: Global, moment: usize) -> bool {
    let told = told_rounds(rt, alloc, &log(rt, alloc, moment, &[]));
    let want = worked_rounds(rt, alloc, moment);
    told.as_slice() == want.as_slice()
}

#[test]
fn the_worked_log_tells_the_put_and_the_get(rt: HostRuntime) {
    for moment in 0..50 {
        assert!(rt; tells_its_rounds(&rt, rt.alloc(), moment), "{moment}");
    }
}
