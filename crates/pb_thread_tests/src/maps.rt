//! Maps on devices in memory, and scripts that are run over them.
ghost use Rattle.std.specs.Prelude.{◌≡◌, true, All};
ghost use Rattle.pb_engine.specs.View.{IsEngine};
ghost use Rattle.pb_script.specs.Script.{IsAskOf};

use crate::flags::Hall;
use crate::held_device::HeldDevice;
use pb_comb::Comb;
use pb_engine::Engine;
use pb_image::Image;
use pb_io::ByteSink;
use pb_map::RegMap;
use pb_object::Ask;
use pb_pmem::Pmem;
use pb_report::{Outcome, write_outcomes};
use pb_run::run_script;
use pb_script::parse_script;
use pb_shared::Gate;
use std::alloc::Global;
use std::process::Abort;
use std::sync::{Arc, Wait};
use std::thread::Threads;

/// A map of 4 for so many clients on this device.
pub fn map<P: Pmem>(rt: &impl Abort, alloc: Global, device: P, clients: u32) -> Comb<RegMap, P>
    ensures sure { result.sure ≡ true }
    ensures clients { result.standing.clients ≡ clients }
{
    assert!(rt; 1 <= clients && clients <= 16);
    match Comb::<RegMap, P>::fresh(alloc, device, clients, 4) {
        Ok(engine) => engine,
        Err(_) => panic!(rt; "the map is made"),
    }
}

/// A device of zeros that is held until so many others were busy.
pub fn held(rt: &impl Abort, alloc: Global, hall: &Arc<Hall, Global>, others: usize) -> HeldDevice {
    HeldDevice {
        image: Image::zero(alloc, 4096).expect(rt, "memory"),
        syncs: 0,
        others,
        hall: Arc::try_clone(hall).expect(rt, "memory"),
    }
}

// The requests of a script for this engine.
fn asks_of<E: Engine>(rt: &impl Abort, alloc: Global, engine: &E, script: &str) -> Vec<Ask>
    ensures asks { All (IsAskOf (E.seen engine.now).standing.kind (E.seen engine.now).standing.clients) result.items }
    ensures sound { IsEngine (E.seen engine.now).standing.kind (E.seen engine.now) }
{
    assert!(rt; script.len() < 65536);
    match parse_script(alloc, script.as_bytes(), engine.kind(), engine.clients()) {
        Ok(asks) => asks,
        Err(_) => panic!(rt; "the script is read"),
    }
}

/// Runs a script over an engine that is sure: the outcome lines are these.
pub fn comes_to<R: Wait + Threads + Sync + Abort, E: Engine + Send, G: Gate>(
    rt: &R,
    alloc: Global,
    engine: E,
    script: &str,
    gate: &G,
    lines: &str,
) -> E {
    assert!(rt; engine.sure());
    let asks = asks_of(rt, alloc, &engine, script);
    let mut outcomes = vec![in alloc; Outcome::Left; asks.len()].expect(rt, "memory");
    let Ok(engine) = run_script(rt, alloc, engine, &asks, &mut outcomes, gate) else {
        panic!(rt; "memory");
    };
    let mut sink = ByteSink::new(alloc, 4096, 4096, &[]).expect(rt, "memory");
    assert!(rt; outcomes.len() == asks.len());
    assert!(rt; write_outcomes(&mut sink, &asks, &outcomes).is_ok());
    assert!(rt; sink.bytes() == lines.as_bytes());
    engine
}
