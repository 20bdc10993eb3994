//! The first script over a device that never fails and tells no log.
use crate::rows::{FIRST, NEW};
use crate::run::{run_over, sink, source};
use pb_image::Sound;
use pb_shared::OpenGate;
use std::alloc::Global;
use std::process::Abort;
use std::sync::Wait;
use std::thread::Threads;

// Makes a call over such a device, and gives it back.
fn call(
    rt: &(impl Abort + Wait + Threads + Sync),
    alloc: Global,
    device: Sound,
    words: &str,
    text: &str,
) -> Sound {
    let mut source = source(rt, alloc, FIRST.as_bytes(), 4096, &[]);
    let mut sink = sink(rt, alloc, 4096, 4096);
    let done = run_over(
        rt,
        alloc,
        words,
        (&mut source, &mut sink),
        device,
        &OpenGate,
    );
    assert!(rt; done.status.code() == 0 && sink.bytes() == text.as_bytes());
    done.device
}

#[test]
fn the_first_script_and_again(rt: HostRuntime) {
    let alloc = rt.alloc();
    let device = Sound::zero(alloc).expect(&rt, "memory");
    let device = call(&rt, alloc, device, "fresh map 1 4", NEW);
    call(
        &rt,
        alloc,
        device,
        "run",
        "0 1 kept was 0 1\n0 2 kept is 77 1\n",
    );
}
