//! Making a region, and running a script on it.
ghost use Rattle.std.specs.Prelude.{◌≡◌, All, IfOk, IfErr, MatchResult};
ghost use Rattle.pb_script.specs.Script.{IsAskOf};
ghost use Rattle.pb_broker.specs.Call.{Call};
ghost use Rattle.pb_broker.specs.Comes.{IsScriptOf, ServesFresh, StopsFresh};
ghost use Rattle.pb_broker.specs.Serving.{StopsPreparing, ServesNew, IsNotMade};
ghost use Rattle.pb_broker.specs.Source.{IsReadWhole};
ghost use Rattle.pb_broker.specs.Stream.{stream};

use crate::command::{Ran, refused};
use crate::requests::{Requests, read_requests, serve};
use crate::source::read_all;
use crate::stop::Stop;
use pb_engines::AnyEngine;
use pb_io::Source;
use pb_layout::Header;
use pb_pmem::Pmem;
use pb_shared::Gate;
use std::alloc::Global;
use std::sync::Wait;
use std::thread::Threads;

/// Reads the source's script, makes a region on the device, and runs the script on it.
///
/// The lines are judged before the device is called, and all memory is taken before the first request is asked for.
pub fn fresh<R: Wait + Threads + Sync, S: Source, P: Pmem + Send, G: Gate>(
    rt: &R,
    alloc: Global,
    head: &Header,
    source: &mut S,
    device: P,
    gate: &G,
) -> Ran<P>
    ensures { let call : Call = record {
      read = stream (S.rest source.old) (S.rest source.new) (S.fault_count source.old) (S.fault_count source.new);
      before = P.seen device;
      after = P.seen result.device;
    } in
        MatchResult result.served
        (λ requests. ServesFresh head.now call requests.asks.items requests.outcomes.items)
        (StopsFresh head.now call) }
{
    match prepare(alloc, head, source) {
        Ok(requests) => run_new(rt, alloc, head, requests, device, gate),
        Err(stop) => Ran {
            served: Err(stop),
            device,
        },
    }
}

/// Reads the source, and judges its lines.
fn prepare<S: Source>(alloc: Global, head: &Header, source: &mut S) -> Result<Requests, Stop>
    ensures script { let read = stream (S.rest source.old) (S.rest source.new) (S.fault_count source.old) (S.fault_count source.new) in
        IfOk result (λ requests. IsReadWhole (IsScriptOf head.now.kind head.now.clients requests.asks.items) read) }
    ensures asks { IfOk result (λ requests. All (IsAskOf head.now.kind head.now.clients) requests.asks.items) }
    ensures err { let read = stream (S.rest source.old) (S.rest source.new) (S.fault_count source.old) (S.fault_count source.new) in
        IfErr result (StopsPreparing head.now.kind head.now.clients read) }
{
    let bytes = read_all(alloc, source)?;
    read_requests(alloc, &bytes, head.kind, head.clients)
}

/// Makes the region of the header's kind, and runs requests on it.
fn run_new<R: Wait + Threads + Sync, P: Pmem + Send, G: Gate>(
    rt: &R,
    alloc: Global,
    head: &Header,
    requests: Requests,
    device: P,
    gate: &G,
) -> Ran<P>
    requires { All (IsAskOf head.now.kind head.now.clients) requests.asks.items }
    ensures asks { IfOk result.served (λ served. served.asks.items ≡ requests.asks.items) }
    ensures ran { MatchResult result.served
        (λ served. ServesNew head.now (P.seen device) (P.seen result.device) served.asks.items served.outcomes.items)
        (IsNotMade head.now (P.seen device) (P.seen result.device)) }
{
    match AnyEngine::fresh(alloc, head, device) {
        Ok(engine) => match serve(rt, alloc, engine, requests, gate) {
            Ok((engine, served)) => Ran {
                served: Ok(served),
                device: engine.close(),
            },
            Err(engine) => Ran {
                served: Err(Stop::Memory),
                device: engine.close(),
            },
        },
        Err(why) => refused(why),
    }
}
