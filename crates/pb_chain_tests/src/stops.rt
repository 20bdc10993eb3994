//! Crashes at each moment of a run, at each cut, and at each moment of the runs that go on behind them: in the end each request took
//! effect once.
use crate::asking::{Asking, Line, answered, beginning, cut, report_text, script_text};
use crate::calls::{after, call, cuts, fails, log_len, says, zeros};
use crate::plain::{Form, Wish};
use pb_crash::Leaves;
use pb_image::{Call, Image};
use pb_pmem::LogOp;
use std::alloc::Global;
use std::process::Abort;
use std::sync::Wait;
use std::thread::Threads;

/// A place of no line.
pub const NOWHERE: usize = usize::MAX;

/// How many rounds, the making of the region as the first, a crash leaves of the operations between two moments: those that a sync stands behind, and one
/// whose word stands behind a fence, where the crash leaves that word.
pub fn rounds_left(ops: &[LogOp], from: u32, to: u32, leaves_words: bool) -> usize {
    let mut rounds = 0usize;
    let mut is_fenced = false;
    let mut is_turned = false;
    for op in ops.iter().take(to as usize).skip(from as usize) {
        match op {
            LogOp::Fence => is_fenced = true,
            LogOp::Word { .. } => is_turned = is_fenced,
            LogOp::Sync => {
                rounds = rounds.saturating_add(1);
                is_fenced = false;
                is_turned = false;
            }
            LogOp::Whole { .. } => {}
            LogOp::Back { .. } => {}
        }
    }
    if is_turned && leaves_words {
        rounds = rounds.saturating_add(1);
    }
    rounds
}

/// The words that make a region, the object's form and size, and a script for one client.
#[derive(Clone, Copy)]
struct Case<'a> {
    words: &'a str,
    form: Form,
    size: usize,
    script: &'a [Line],
}

// A script's client behind its first so many requests.
fn behind(
    rt: &(impl Abort + Wait + Threads + Sync),
    alloc: Global,
    case: &Case,
    count: usize,
) -> Asking {
    let mut all = beginning(rt, alloc, 1, (case.form, case.size));
    answered(rt, alloc, &mut all, case.script, NOWHERE);
    cut(rt, alloc, &all, &[count as u64])
}

// Runs the script on what a crash left, with so many of its rounds, and makes the region where there is none.
fn goes_on(
    rt: &(impl Abort + Wait + Threads + Sync),
    alloc: Global,
    device: Image,
    case: &Case,
    rounds: usize,
) -> Image {
    let text = script_text(rt, alloc, case.script);
    let mut asking = behind(rt, alloc, case, rounds.saturating_sub(1));
    let (said, status) = answered(rt, alloc, &mut asking, case.script, NOWHERE);
    if rounds > 0 {
        return says(rt, alloc, device, ("run", &text), (&said, status));
    }
    let device = says(rt, alloc, device, ("run", &text), ("none\n", 7));
    says(rt, alloc, device, (case.words, &text), (&said, status))
}

// In the end the report is that of all requests.
fn has_all(rt: &(impl Abort + Wait + Threads + Sync), alloc: Global, device: Image, case: &Case) {
    let all = behind(rt, alloc, case, NOWHERE);
    let report = report_text(rt, alloc, &all);
    says(rt, alloc, device, ("report", ""), (&report, 0));
}

// Runs the script to its end, whatever it answers on the way.
fn to_the_end(
    rt: &(impl Abort + Wait + Threads + Sync),
    alloc: Global,
    device: Image,
    case: &Case,
) {
    let text = script_text(rt, alloc, case.script);
    let (device, (_, status)) = call(rt, alloc, device, "run", &text);
    let device = if status == 7 {
        call(rt, alloc, device, case.words, &text).0
    } else {
        device
    };
    has_all(rt, alloc, device, case);
}

// Stops a run that went on at each moment of its own log.
fn stops_again(
    rt: &(impl Abort + Wait + Threads + Sync),
    alloc: Global,
    device: &Image,
    case: &Case,
) {
    let end = log_len(rt, device);
    for moment in 0..=end {
        let (_, greatest) = cuts(rt, device, moment);
        let left = after(rt, alloc, device, moment, (greatest, 1));
        to_the_end(rt, alloc, left, case);
    }
}

// The crashes at a moment: at each cut, these picks. What goes on behind them is stopped again where that is asked for.
fn stops_at(
    rt: &(impl Abort + Wait + Threads + Sync),
    alloc: Global,
    device: &Image,
    case: &Case,
    moment: u32,
    again: &[u64],
) {
    let (least, greatest) = cuts(rt, device, moment);
    for cut in least..=greatest {
        for pick in [0, 1, 7] {
            let leaves_words = cut == greatest && pick > 0;
            let rounds = rounds_left(device.log(), 0, moment, leaves_words);
            let left = after(rt, alloc, device, moment, (cut, pick));
            let gone_on = goes_on(rt, alloc, left, case, rounds);
            if rounds > 0 && again.contains(&pick) {
                stops_again(rt, alloc, &gone_on, case);
            }
            has_all(rt, alloc, gone_on, case);
        }
    }
}

fn stops_at_each(
    rt: &(impl Abort + Wait + Threads + Sync),
    alloc: Global,
    device: &Image,
    case: &Case,
    again: &[u64],
) {
    let end = log_len(rt, device);
    for moment in 0..=end {
        stops_at(rt, alloc, device, case, moment, again);
    }
}

const MAP: Case<'static> = Case {
    words: "fresh map 1 4",
    form: Form::Map,
    size: 4,
    script: &[(0, 1, Wish::Put(3, 77)), (0, 2, Wish::Get(3))],
};

#[test]
fn of_a_map(rt: HostRuntime) {
    let alloc = rt.alloc();
    let device = goes_on(&rt, alloc, zeros(&rt, alloc), &MAP, 0);
    assert!(rt; device.log().len() == 49);
    stops_at_each(&rt, alloc, &device, &MAP, &[0, 1, 7]);
}

// The sync of the first round fails, and the script is run again on the same device.
#[test]
fn of_a_map_whose_sync_fails(rt: HostRuntime) {
    let alloc = rt.alloc();
    let mut device = zeros(&rt, alloc);
    fails(&rt, alloc, &mut device, Call::Sync, 2, Leaves::Left);
    let text = script_text(&rt, alloc, MAP.script);
    let doubt = ("0 1 doubt\n0 2 left\n", 6);
    let device = says(&rt, alloc, device, (MAP.words, &text), doubt);
    assert!(rt; device.log().len() == 39);
    let device = goes_on(&rt, alloc, device, &MAP, 2);
    stops_at_each(&rt, alloc, &device, &MAP, &[]);
}

const QUEUE: Case<'static> = Case {
    words: "fresh queue 1 2",
    form: Form::Queue,
    size: 2,
    script: &[
        (0, 1, Wish::Add(1)),
        (0, 2, Wish::Add(2)),
        (0, 3, Wish::Add(3)),
        (0, 4, Wish::Take),
        (0, 5, Wish::Add(4)),
        (0, 6, Wish::Take),
    ],
};

#[test]
fn of_a_queue(rt: HostRuntime) {
    let alloc = rt.alloc();
    let device = goes_on(&rt, alloc, zeros(&rt, alloc), &QUEUE, 0);
    stops_at_each(&rt, alloc, &device, &QUEUE, &[]);
}

const SHORT_QUEUE: Case<'static> = Case {
    words: "fresh queue 1 2",
    form: Form::Queue,
    size: 2,
    script: &[(0, 1, Wish::Add(5)), (0, 2, Wish::Take)],
};

#[test]
fn of_a_short_queue(rt: HostRuntime) {
    let alloc = rt.alloc();
    let device = goes_on(&rt, alloc, zeros(&rt, alloc), &SHORT_QUEUE, 0);
    stops_at_each(&rt, alloc, &device, &SHORT_QUEUE, &[1]);
}
