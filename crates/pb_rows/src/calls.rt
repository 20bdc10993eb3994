//! What a run asks of its gate and of its sink.
ghost use Rattle.std.specs.Prelude.{◌≡◌, ◌≤◌, ◌<◌, None, take, length, IfOk, OnErr};
ghost use Rattle.std.specs.Io.KnownBytes.{Appends, Keeps};
ghost use Rattle.pb_pmem.specs.Count.{HasCause};
ghost use Rattle.pb_io.specs.SinkBytes.{AppendsSome};

use crate::rows::FIRST;
use crate::run::{run_over, sink, source, zeros};
use crate::watched::{CountingDevice, LookingGate};
use pb_io::{Sink, SinkFault};
use pb_shared::OpenGate;
use std::alloc::Global;
use std::process::Abort;
use std::sync::Wait;
use std::sync::atomic::{AtomicU64, Ordering};
use std::thread::Threads;

// Formatting is 25 operations, the first round of this map is 15, and the second one is nine.
#[test]
fn the_gate_is_asked_before_each_request(rt: HostRuntime) {
    let alloc = rt.alloc();
    let operations = AtomicU64::new(0);
    let gate = LookingGate {
        operations: &operations,
        calls: AtomicU64::new(0),
        first: AtomicU64::new(0),
        second: AtomicU64::new(0),
    };
    let device = CountingDevice {
        image: zeros(&rt, alloc, 4096),
        operations: &operations,
    };
    let mut source = source(&rt, alloc, FIRST.as_bytes(), 4096, &[]);
    let mut sink = sink(&rt, alloc, 4096, 4096);
    let streams = (&mut source, &mut sink);
    let done = run_over(&rt, alloc, "fresh map 1 4", streams, device, &gate);
    assert!(rt; done.status.code() == 0);
    assert!(rt; gate.calls.load(Ordering::SeqCst) == 2);
    assert!(rt; gate.first.load(Ordering::SeqCst) == 25);
    assert!(rt; gate.second.load(Ordering::SeqCst) == 40);
    assert!(rt; operations.load(Ordering::SeqCst) == 49);
}

// A sink that takes all bytes, tells none, and fails when it is asked to pass them on.
#[derive(Drop)]
struct KeepingSink {
    faults: u64,
}

impl Sink for KeepingSink {
    ghost bytes = { λ _. None };

    ghost fault_count = { λ sink. sink.faults };

    fn write(&mut self, from: &[u8]) -> Result<usize, SinkFault>
        ensures bound { IfOk result (λ count. count ≤ length from.now) }
        ensures some { IfOk result (λ count. 0 < length from.now → 0 < count) }
        ensures ok { IfOk result (λ count. Appends None None (take count from.now)) }
        ensures err { OnErr result (AppendsSome None None from.now) }
        ensures cause { HasCause self.old.faults self.new.faults result }
    {
        Ok(from.len())
    }

    fn flush(&mut self) -> Result<(), SinkFault>
        ensures bytes { Keeps None None }
        ensures cause { HasCause self.old.faults self.new.faults result }
    {
        self.faults = self.faults.saturating_add(1);
        Err(SinkFault)
    }

    fn faults(&self) -> u64
        ensures { result ≡ self.now.faults }
    {
        self.faults
    }
}

// The status of a run into a sink that fails when it is asked to pass on, and how often that was.
fn passed_on(
    rt: &(impl Abort + Wait + Threads + Sync),
    alloc: Global,
    command: &str,
    script: &str,
) -> (u8, u64) {
    let mut source = source(rt, alloc, script.as_bytes(), 4096, &[]);
    let mut sink = KeepingSink { faults: 0 };
    let device = zeros(rt, alloc, 4096);
    let streams = (&mut source, &mut sink);
    let done = run_over(rt, alloc, command, streams, device, &OpenGate);
    (done.status.code(), sink.faults())
}

#[test]
fn a_sink_is_asked_to_pass_on_what_it_took(rt: HostRuntime) {
    assert!(rt; passed_on(&rt, rt.alloc(), "fresh map 1 4", FIRST) == (5, 1));
    assert!(rt; passed_on(&rt, rt.alloc(), "now", "") == (5, 1));
}
