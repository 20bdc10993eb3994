//! A run of one client ends with its first failing call: the call isn't made again, and none is made after it.
use crate::rows::FIRST;
use crate::run::{failing, run_into, sink, source, zeros};
use pb_broker::Done;
use pb_crash::Leaves;
use pb_image::{Call, Image};
use pb_io::Source;
use pb_pmem::Pmem;
use std::alloc::Global;
use std::process::Abort;
use std::sync::Wait;
use std::thread::Threads;

// The most bytes that a source may have.
const LIMIT: usize = 4_194_304;

// The first script is 23 bytes: in pieces of five it takes five reads, and the sixth finds its end.
const SOURCE_READS: u64 = 6;

// How the first script ends whose source fails at these reads: its status, and the source's count of faults.
fn over_source(
    rt: &(impl Abort + Wait + Threads + Sync),
    alloc: Global,
    fails: &[u64],
) -> (u8, u64) {
    let mut source = source(rt, alloc, FIRST.as_bytes(), 5, fails);
    let mut sink = sink(rt, alloc, 4096, 4096);
    let device = zeros(rt, alloc, 4096);
    let done = run_into(rt, alloc, "fresh map 1 4", &mut source, &mut sink, device);
    (done.status.code(), source.faults())
}

// How the first script ends over this device.
fn over_device(
    rt: &(impl Abort + Wait + Threads + Sync),
    alloc: Global,
    device: Image,
) -> Done<Image> {
    let mut source = source(rt, alloc, FIRST.as_bytes(), 4096, &[]);
    let mut sink = sink(rt, alloc, 4096, 4096);
    run_into(rt, alloc, "fresh map 1 4", &mut source, &mut sink, device)
}

#[test]
fn a_read_of_the_source_that_fails_is_the_last_one(rt: HostRuntime) {
    for first in 1..SOURCE_READS + 1 {
        let three = [first, first + 1, first + 2];
        assert!(rt;
            over_source(&rt, rt.alloc(), &three) == (4, 1),
            "read {first}"
        );
    }
}

#[test]
fn a_source_is_not_read_after_its_end(rt: HostRuntime) {
    assert!(rt; over_source(&rt, rt.alloc(), &[SOURCE_READS + 1]) == (0, 0));
}

#[test]
fn a_long_source_is_read_to_one_byte_after_the_limit(rt: HostRuntime) {
    let alloc = rt.alloc();
    let bytes = vec![in alloc; b'#'; LIMIT + 11].expect(&rt, "memory");
    let mut source = source(&rt, alloc, &bytes, 65536, &[]);
    let mut sink = sink(&rt, alloc, 4096, 4096);
    let device = zeros(&rt, alloc, 4096);
    let done = run_into(&rt, alloc, "fresh map 1 1", &mut source, &mut sink, device);
    assert!(rt; done.status.code() == 3 && sink.bytes() == b"long\n".as_slice());
    assert!(rt; source.read(&mut [0; 16]) == Ok(10));
}

// How many calls of each kind the first script makes, beside reads.
const CALLS: [(Call, u64); 5] = [
    (Call::Write, 26),
    (Call::SetWord, 10),
    (Call::WriteBack, 7),
    (Call::Fence, 3),
    (Call::Sync, 3),
];

// How the first script ends that fails at these calls of a kind: its status, and the device's count of faults.
fn over_failing(
    rt: &(impl Abort + Wait + Threads + Sync),
    alloc: Global,
    call: Call,
    fails: &[u64],
) -> (u8, u64) {
    let done = over_device(rt, alloc, failing(rt, alloc, call, fails, Leaves::Left));
    (done.status.code(), done.device.faults())
}

#[test]
fn a_device_call_that_fails_is_the_last_one(rt: HostRuntime) {
    for (call, count) in CALLS {
        for first in 1..count + 1 {
            let three = [first, first + 1, first + 2];
            let end = over_failing(&rt, rt.alloc(), call, &three);
            assert!(rt; end == (6, 1), "call {first}");
        }
        assert!(rt; over_failing(&rt, rt.alloc(), call, &[count + 1]) == (0, 0));
    }
}

#[test]
fn a_read_of_the_device_that_fails_is_the_last_one(rt: HostRuntime) {
    let end = over_failing(&rt, rt.alloc(), Call::Read, &[1, 2, 3]);
    assert!(rt; end == (6, 1));
}
