//! Opening a region, and running a script on it.
ghost use Rattle.std.specs.Prelude.{◌≡◌, ◌≤◌, IfOk, IfErr, MatchResult, length, None, false};
ghost use Rattle.pb_broker.specs.declared.source.TheConstants.{SOURCE_LIMIT};
ghost use Rattle.pb_broker.specs.Call.{Call};
ghost use Rattle.pb_broker.specs.Comes.{ServesRun, StopsReadingFew, StopsRun};
ghost use Rattle.pb_broker.specs.Serving.{ReadsFew, ServesFound, StopsFound, ServesOn, StopsOn};
ghost use Rattle.pb_broker.specs.Stream.{stream};

use crate::command::{Ran, refused};
use crate::requests::{Requests, read_requests, serve};
use crate::source::read_all;
use crate::stop::Stop;
use pb_engine::Engine;
use pb_engines::AnyEngine;
use pb_io::Source;
use pb_pmem::Pmem;
use pb_script::is_short;
use pb_shared::Gate;
use std::alloc::Global;
use std::sync::Wait;
use std::thread::Threads;

/// Opens the device's region, settles it, and runs the source's script on it.
///
/// Request lines are counted before the device is called, and judged behind the opening. All memory is taken before the
/// first request is asked for.
pub fn run<R: Wait + Threads + Sync, S: Source, P: Pmem + Send, G: Gate>(
    rt: &R,
    alloc: Global,
    source: &mut S,
    device: P,
    gate: &G,
) -> Ran<P>
    ensures { let call : Call = record {
      read = stream (S.rest source.old) (S.rest source.new) (S.fault_count source.old) (S.fault_count source.new);
      before = P.seen device;
      after = P.seen result.device;
    } in
        MatchResult result.served (λ requests. ServesRun call requests.asks.items requests.outcomes.items) (StopsRun call) }
{
    match read_few(alloc, source) {
        Ok(bytes) => run_on(rt, alloc, &bytes, device, gate),
        Err(stop) => Ran {
            served: Err(stop),
            device,
        },
    }
}

/// Reads the source, and counts its request lines.
fn read_few<S: Source>(alloc: Global, source: &mut S) -> Result<Vec<u8>, Stop>
    ensures ok { let read = stream (S.rest source.old) (S.rest source.new) (S.fault_count source.old) (S.fault_count source.new) in
        IfOk result (λ bytes. ReadsFew read bytes.items) }
    ensures err { let read = stream (S.rest source.old) (S.rest source.new) (S.fault_count source.old) (S.fault_count source.new) in
        IfErr result (StopsReadingFew read) }
{
    let bytes = read_all(alloc, source)?;
    if is_short(&bytes) {
        Ok(bytes)
    } else {
        Err(Stop::Many)
    }
}

/// Opens the region, and runs the script of these bytes on it.
fn run_on<R: Wait + Threads + Sync, P: Pmem + Send, G: Gate>(
    rt: &R,
    alloc: Global,
    bytes: &[u8],
    device: P,
    gate: &G,
) -> Ran<P>
    requires { length bytes.now ≤ SOURCE_LIMIT }
    ensures { MatchResult result.served
        (λ served. ServesOn bytes.now (P.seen device) (P.seen result.device) served.asks.items served.outcomes.items)
        (StopsOn bytes.now (P.seen device) (P.seen result.device)) }
{
    match AnyEngine::open(alloc, device) {
        Ok(engine) => {
            let (engine, served) = run_found(rt, alloc, bytes, engine, gate);
            Ran {
                served,
                device: engine.close(),
            }
        }
        Err(why) => refused(why),
    }
}

/// Judges the lines, settles the engine that was just opened, and runs the script.
fn run_found<R: Wait + Threads + Sync, E: Engine + Send, G: Gate>(
    rt: &R,
    alloc: Global,
    bytes: &[u8],
    mut engine: E,
    gate: &G,
) -> (E, Result<Requests, Stop>)
    requires source { length bytes.now ≤ SOURCE_LIMIT }
    requires unsure { (E.seen engine).sure ≡ false }
    requires decided { (E.seen engine).doubt ≡ None }
    ensures ok { IfOk result.1 (λ served.
        ServesFound (E.seen engine).standing.kind (E.seen engine) bytes.now (E.seen result.0) served.asks.items served.outcomes.items) }
    ensures err { IfErr result.1 (StopsFound (E.seen engine).standing.kind (E.seen engine) bytes.now (E.seen result.0)) }
{
    let requests = match read_requests(alloc, bytes, engine.kind(), engine.clients()) {
        Ok(requests) => requests,
        Err(stop) => return (engine, Err(stop)),
    };
    if engine.settle().is_err() {
        return (engine, Err(Stop::DeviceFault));
    }
    match serve(rt, alloc, engine, requests, gate) {
        Ok((engine, served)) => (engine, Ok(served)),
        Err(engine) => (engine, Err(Stop::Memory)),
    }
}
