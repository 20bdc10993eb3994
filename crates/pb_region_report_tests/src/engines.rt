//! Engines on the device in memory, over which scripts are run.
ghost use Rattle.std.specs.Prelude.{◌≡◌, true, OnOk};

use pb_comb::Comb;
use pb_engine::Engine;
use pb_engines::AnyEngine;
use pb_heap::MinHeap;
use pb_image::Image;
use pb_map::RegMap;
use pb_object::{Kind, Object};
use pb_pair::{Pair, Why};
use pb_pmem::DeviceFault;
use pb_queue::TwinQueue;
use pb_report::Outcome;
use pb_run::run_script;
use pb_script::parse_script;
use pb_shared::OpenGate;
use pb_stack::Stack;
use std::alloc::{AllocError, Global};
use std::process::Abort;
use std::sync::Wait;
use std::test::Fail;
use std::thread::Threads;

/// A region, and the requests that are served in it.
#[derive(Clone, Copy)]
pub struct Session {
    pub kind: Kind,
    pub clients: u32,
    pub size: u32,
    pub script: &'static str,
}

// Settles where the engine isn't sure, so that nothing is in doubt.
fn settle<E: Engine>(engine: &mut E) -> Result<(), DeviceFault>
    ensures { OnOk result ((E.seen engine.new).sure ≡ true) }
{
    if engine.sure() {
        return Ok(());
    }
    match engine.settle() {
        Ok(_) => Ok(()),
        Err(fault) => Err(fault),
    }
}

// Runs a session's requests one after the other, each by itself.
fn run<R: Wait + Threads + Sync + Abort, E: Engine + Send>(
    rt: &R,
    alloc: Global,
    mut engine: E,
    script: &str,
) -> Result<E, AllocError> {
    for line in script.lines() {
        engine = run_line(rt, alloc, engine, line)?;
    }
    Ok(engine)
}

// Runs a request over an engine.
fn run_line<R: Wait + Threads + Sync + Abort, E: Engine + Send>(
    rt: &R,
    alloc: Global,
    mut engine: E,
    line: &str,
) -> Result<E, AllocError> {
    assert!(rt; settle(&mut engine).is_ok() && line.len() < 65536);
    let clients = engine.clients();
    let Ok(asks) = parse_script(alloc, line.as_bytes(), engine.kind(), clients) else {
        panic!(rt; "the request is read");
    };
    let mut outcomes = vec![in alloc; Outcome::Left; asks.len()]?;
    match run_script(rt, alloc, engine, &asks, &mut outcomes, &OpenGate) {
        Ok(engine) => Ok(engine),
        Err((refused, _)) => Err(refused),
    }
}

/// An engine of an object with one side on this device, after the session's requests.
pub fn comb<R: Wait + Threads + Sync + Abort, O: Object + Send>(
    rt: &R,
    alloc: Global,
    device: Image,
    session: &Session,
) -> Result<Comb<O, Image>, Fail> {
    let (clients, size) = (session.clients, session.size);
    assert!(rt; 1 <= clients && clients <= 16);
    assert!(rt; 1 <= size && size <= 1024);
    match Comb::<O, Image>::fresh(alloc, device, clients, size) {
        Ok(comb) => Ok(run(rt, alloc, comb, session.script)?),
        Err(refused) => Err(Fail::from(refused.why)),
    }
}

// The same of a queue.
fn queue<R: Wait + Threads + Sync + Abort>(
    rt: &R,
    alloc: Global,
    device: Image,
    session: &Session,
) -> Result<TwinQueue<Image>, Fail> {
    let (clients, size) = (session.clients, session.size);
    assert!(rt; 1 <= clients && clients <= 16);
    assert!(rt; 1 <= size && size <= 1024);
    match TwinQueue::<Image>::fresh(alloc, device, clients, size) {
        Ok(queue) => Ok(run(rt, alloc, queue, session.script)?),
        Err(refused) => Err(Fail::from(refused.why)),
    }
}

/// The device after the session's requests.
pub fn served<R: Wait + Threads + Sync + Abort>(
    rt: &R,
    alloc: Global,
    session: &Session,
) -> Result<Image, Fail> {
    let device = Image::zero(alloc, 1024)?;
    match session.kind {
        Kind::Map => Ok(comb::<R, RegMap>(rt, alloc, device, session)?.close()),
        Kind::Stack => Ok(comb::<R, Stack>(rt, alloc, device, session)?.close()),
        Kind::Heap => Ok(comb::<R, MinHeap>(rt, alloc, device, session)?.close()),
        Kind::Queue => Ok(queue(rt, alloc, device, session)?.close()),
    }
}

/// Opens the region that a device holds.
pub fn open(alloc: Global, device: Image) -> Result<AnyEngine<Image>, Why> {
    let pair = match Pair::open(alloc, device) {
        Ok(pair) => pair,
        Err(refused) => return Err(refused.why),
    };
    match AnyEngine::adopt(alloc, pair) {
        Ok(engine) => Ok(engine),
        Err(refused) => Err(refused.why),
    }
}
