//! Readiness: what a region may be found with, also after what may be done to it before it is opened.
use crate::crash::found_at_the_end;
use crate::found::Found;
use crate::logs::{device, log};
use pb_device_fixtures::{MAGIC, back, word};
use pb_pmem::LogOp;
use std::alloc::Global;
use std::process::Abort;

// The round number that settling may write for a member.
fn settling_word(member: &Found) -> Option<LogOp> {
    match *member {
        Found::Round(round) => Some(word(1, 0, round)),
        _ => None,
    }
}

// Nothing, and what may be done to a device with these members.
fn allowed(members: &[Found; 2]) -> [Option<LogOp>; 9] {
    [
        None,
        Some(back(1, 1)),
        Some(back(0, 3)),
        Some(LogOp::Fence),
        Some(LogOp::Sync),
        Some(word(0, 0, MAGIC)),
        settling_word(&members[0]),
        settling_word(&members[1]),
        Some(word(2, 0, 0)),
    ]
}

// What is found at the end after the first operations of the worked log and more.
fn found_after(
    rt: &impl Abort,
    alloc: Global,
    moment: usize,
    more: [Option<LogOp>; 3],
) -> Vec<Found> {
    let mut ops = log(rt, alloc, moment, &[]);
    for op in more {
        if let Some(op) = op {
            ops.push(op).expect(rt, "memory");
        }
    }
    found_at_the_end(rt, alloc, &device(rt, alloc, &ops))
}

// Each image represents a member.
fn are_members(all: &[Found], members: &[Found; 2]) -> bool {
    for found in all {
        if !members.contains(found) {
            return false;
        }
    }
    true
}

// Each image represents a member after each two of the operations that are allowed, and then each of these.
fn is_ready(
    rt: &impl Abort,
    alloc: Global,
    moment: usize,
    members: &[Found; 2],
    last: &[Option<LogOp>],
) -> bool {
    for first in allowed(members) {
        for second in allowed(members) {
            for &third in last {
                let found = found_after(rt, alloc, moment, [first, second, third]);
                if !are_members(&found, members) {
                    return false;
                }
            }
        }
    }
    true
}

#[test]
fn a_formatted_region_is_ready(rt: HostRuntime) {
    let empty = [Found::Round(0); 2];
    assert!(rt; is_ready(&rt, rt.alloc(), 25, &empty, &allowed(&empty)));
}

#[test]
fn readiness_names_what_may_be_found(rt: HostRuntime) {
    // Columns: the moment, the one or two members, and whether the device is ready for them.
    for (moment, first, second, ready) in [
        (21, Found::Nothing, Found::Round(0), false),
        (22, Found::Nothing, Found::Round(0), true),
        (24, Found::Nothing, Found::Round(0), true),
        (24, Found::Round(0), Found::Round(0), false),
        (36, Found::Round(0), Found::Round(0), true),
        (36, Found::Round(0), Found::Round(1), false),
        (37, Found::Round(0), Found::Round(1), true),
        (39, Found::Round(0), Found::Round(1), true),
        (39, Found::Round(0), Found::Round(0), false),
        (40, Found::Round(1), Found::Round(1), true),
        (45, Found::Round(1), Found::Round(1), true),
        (45, Found::Round(1), Found::Round(2), false),
        (46, Found::Round(1), Found::Round(2), true),
        (48, Found::Round(1), Found::Round(2), true),
        (48, Found::Round(2), Found::Round(2), false),
        (49, Found::Round(2), Found::Round(2), true),
    ] {
        let found = is_ready(&rt, rt.alloc(), moment, &[first, second], &[None]);
        assert!(rt; found == ready, "moment {moment}");
    }
}

#[test]
fn a_word_that_is_not_allowed_ends_readiness(rt: HostRuntime) {
    let found = found_after(&rt, rt.alloc(), 25, [Some(word(1, 0, 1)), None, None]);
    assert!(rt; found.contains(&Found::Damaged));
}
