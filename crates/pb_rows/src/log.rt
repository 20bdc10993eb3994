//! What `fresh map 1 SIZE` does to its device, operation by operation.
use crate::rows::{FRESH, Row, call};
use crate::run::zeros;
use pb_device_fixtures::{MAGIC, back, whole, word};
use pb_pmem::LogOp;
use std::alloc::Global;
use std::process::Abort;
use std::sync::Wait;
use std::thread::Threads;

// The operations of formatting a map of this size with one client, whose records have ten lines, from line 9 on.
fn format_ops(size: u64) -> [LogOp; 25] {
    [
        whole(9, [0; 8]),
        whole(10, [0; 8]),
        whole(11, [0; 8]),
        whole(12, [0; 8]),
        whole(13, [0; 8]),
        whole(14, [0; 8]),
        whole(15, [0; 8]),
        whole(16, [0; 8]),
        whole(17, [0; 8]),
        whole(18, [0; 8]),
        whole(1, [0; 8]),
        whole(2, [0; 8]),
        word(0, 1, 2),
        word(0, 2, 1),
        word(0, 3, 1),
        word(0, 4, size),
        word(0, 5, 3),
        word(0, 6, 3),
        word(0, 7, 0),
        back(0, 3),
        back(9, 10),
        LogOp::Fence,
        word(0, 0, MAGIC),
        back(0, 1),
        LogOp::Sync,
    ]
}

// The operations of the two rounds of the first script. The first one doesn't know what the spare record holds, and writes all of its
// lines; the second one knows that it holds the first record, and writes those that differ.
fn rounds() -> [LogOp; 24] {
    [
        whole(19, [1, 0, 0, 0, 0, 0, 0, 0]),
        whole(20, [1, 2, 3, 77, 0, 2, 0, 1]),
        whole(21, [0; 8]),
        whole(22, [0; 8]),
        whole(23, [0; 8]),
        whole(24, [0; 8]),
        whole(25, [0; 8]),
        whole(26, [0; 8]),
        whole(27, [0; 8]),
        whole(28, [0, 0, 0, 0, 0, 0, 77, 1]),
        back(19, 10),
        LogOp::Fence,
        word(1, 0, 1),
        back(1, 1),
        LogOp::Sync,
        whole(9, [2, 0, 0, 0, 0, 0, 0, 0]),
        whole(10, [2, 1, 3, 0, 0, 1, 77, 1]),
        whole(11, [1, 2, 3, 77, 0, 2, 0, 1]),
        whole(18, [0, 0, 0, 0, 0, 0, 77, 1]),
        back(9, 10),
        LogOp::Fence,
        word(1, 0, 2),
        back(1, 1),
        LogOp::Sync,
    ]
}

fn same(log: &[LogOp], prefix: &[LogOp], after: &[LogOp]) -> bool {
    log.len() == prefix.len() + after.len()
        && log.split_at(prefix.len()).0 == prefix
        && log.split_at(prefix.len()).1 == after
}

// The log of a run on a device of zeros has these operations.
fn makes(
    rt: &(impl Abort + Wait + Threads + Sync),
    alloc: Global,
    row: &Row,
    prefix: &[LogOp],
    after: &[LogOp],
) -> bool {
    let device = call(rt, alloc, zeros(rt, alloc, 4096), row);
    same(device.log(), prefix, after)
}

#[test]
fn the_first_script_makes_these_operations(rt: HostRuntime) {
    assert!(rt; makes(&rt, rt.alloc(), &FRESH, &format_ops(4), &rounds()));
}

#[test]
fn an_empty_script_formats_alone(rt: HostRuntime) {
    let empty = ("fresh map 1 1", "", "", 0, Some(25));
    assert!(rt; makes(&rt, rt.alloc(), &empty, &format_ops(1), &[]));
}
