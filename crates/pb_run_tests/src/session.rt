//! Scripts that are run over one engine, one after the other.
ghost use Rattle.std.specs.Prelude.{◌≡◌, true, All, OnOk};
ghost use Rattle.pb_engine.specs.View.{IsEngine};
ghost use Rattle.pb_script.specs.Script.{IsAskOf};

use pb_comb::Comb;
use pb_crash::Leaves;
use pb_engine::Engine;
use pb_image::{Call, Fail, Image};
use pb_io::ByteSink;
use pb_map::RegMap;
use pb_object::Ask;
use pb_pmem::DeviceFault;
use pb_report::{Outcome, write_outcomes};
use pb_run::run_script;
use pb_script::parse_script;
use pb_shared::OpenGate;
use std::alloc::Global;
use std::process::Abort;
use std::sync::Wait;
use std::thread::Threads;

/// An engine of a map on the device in memory.
pub type MapEngine = Comb<RegMap, Image>;

// A device whose syncs with these numbers fail and leave nothing.
fn device(rt: &impl Abort, alloc: Global, syncs: &[u64]) -> Image {
    let mut fails = Vec::new(alloc);
    for nth in syncs {
        let fail = Fail {
            call: Call::Sync,
            nth: *nth,
            how: Leaves::Left,
        };
        fails.push(fail).expect(rt, "memory");
    }
    let mut device = Image::zero(alloc, 4096).expect(rt, "memory");
    device.failing(fails);
    device
}

/// A map of 4 for so many clients on a device of which these syncs fail. Making the map is the first one.
pub fn map(rt: &impl Abort, alloc: Global, clients: u32, syncs: &[u64]) -> MapEngine {
    assert!(rt; 1 <= clients && clients <= 16);
    match MapEngine::fresh(alloc, device(rt, alloc, syncs), clients, 4) {
        Ok(engine) => engine,
        Err(_) => panic!(rt; "the map is made"),
    }
}

// Settles where the engine isn't sure.
fn settle<E: Engine>(engine: &mut E) -> Result<(), DeviceFault>
    ensures { OnOk result ((E.seen engine.new).sure ≡ true) }
{
    if engine.sure() {
        return Ok(());
    }
    match engine.settle() {
        Ok(_) => Ok(()),
        Err(fault) => Err(fault),
    }
}

// The requests of a script for this engine.
fn asks_of<E: Engine>(rt: &impl Abort, alloc: Global, engine: &E, script: &str) -> Vec<Ask>
    ensures asks { All (IsAskOf (E.seen engine.now).standing.kind (E.seen engine.now).standing.clients) result.items }
    ensures sound { IsEngine (E.seen engine.now).standing.kind (E.seen engine.now) }
{
    assert!(rt; script.len() < 1_048_576);
    match parse_script(alloc, script.as_bytes(), engine.kind(), engine.clients()) {
        Ok(asks) => asks,
        Err(_) => panic!(rt; "the script is read"),
    }
}

/// An engine, and the requests that were last run over it, with their outcomes.
#[derive(Drop)]
pub struct Ran<E: Engine> {
    pub engine: E,
    pub asks: Vec<Ask>,
    pub outcomes: Vec<Outcome>,
}

/// Settles the engine and runs a script over it.
pub fn run<R: Wait + Threads + Sync + Abort, E: Engine + Send>(
    rt: &R,
    alloc: Global,
    mut engine: E,
    script: &str,
) -> Ran<E> {
    assert!(rt; settle(&mut engine).is_ok());
    let asks = asks_of(rt, alloc, &engine, script);
    let mut outcomes = vec![in alloc; Outcome::Left; asks.len()].expect(rt, "memory");
    match run_script(rt, alloc, engine, &asks, &mut outcomes, &OpenGate) {
        Ok(engine) => Ran {
            engine,
            asks,
            outcomes,
        },
        Err(_) => panic!(rt; "memory"),
    }
}

/// The outcome lines of a run.
pub fn lines_of<E: Engine>(rt: &impl Abort, alloc: Global, ran: &Ran<E>) -> ByteSink {
    let mut sink = ByteSink::new(alloc, 4096, 4096, &[]).expect(rt, "memory");
    assert!(rt; ran.outcomes.len() == ran.asks.len());
    assert!(rt; write_outcomes(&mut sink, &ran.asks, &ran.outcomes).is_ok());
    sink
}
