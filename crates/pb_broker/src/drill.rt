//! Running a script that is made from a seed, and summing up what came of it.
ghost use Rattle.std.specs.Prelude.{◌≡◌, ◌≢◌, ◌⊎◌, ◌<◌, ◌≤◌, ◌^◌, true, All, length};
ghost use Rattle.pb_object.specs.declared.kind.Kind.TheVariants.{Map};
ghost use Rattle.pb_object.specs.Object.{Registers};
ghost use Rattle.pb_engines.specs.AnyEngine.{view_of};
ghost use Rattle.pb_script.specs.declared.script.TheConstants.{MOST_REQUESTS};
ghost use Rattle.pb_script.specs.Command.{IsDrillWithin};
ghost use Rattle.pb_script.specs.Script.{IsAskOf};
ghost use Rattle.pb_broker.specs.declared.stop.Stop.TheVariants.{Memory};
ghost use Rattle.pb_broker.specs.Call.{IsSaid};
ghost use Rattle.pb_broker.specs.Texts.{stop_text, stop_status};
ghost use Rattle.pb_broker.specs.Comes.{drill_head, version_sum};
ghost use Rattle.pb_broker.specs.Serving.{DrillsNew, DrillsOn};
ghost use Rattle.pb_broker.specs.Stream.{stream};
ghost use Rattle.pb_broker.specs.Top.{IsDrilled};

use crate::print::{print_stop, print_summary};
use crate::program::Done;
use crate::reports::refuse;
use crate::requests::{Requests, drill_requests, serve};
use crate::stop::Stop;
use pb_engine::Engine;
use pb_engines::AnyEngine;
use pb_io::Sink;
use pb_layout::Header;
use pb_map::RegMap;
use pb_object::{Kind, Object};
use pb_pmem::Pmem;
use pb_script::DRILL_SIZE;
use pb_shared::Gate;
use std::alloc::Global;
use std::sync::Wait;
use std::thread::Threads;

/// Makes a region of a map on the device, runs the script on it that is made from the seed, so many requests of each client, and prints
/// how many there were and what they came to.
///
/// All memory is taken before the first request is asked for. Where that is had and no call of the device fails, the same numbers print
/// the same text.
pub fn drill<R: Wait + Threads + Sync, K: Sink, P: Pmem + Send, G: Gate>(
    rt: &R,
    alloc: Global,
    seed: u64,
    clients: u32,
    count: u32,
    sink: &mut K,
    device: P,
    gate: &G,
) -> Done<P>
    requires { IsDrillWithin clients count }
    ensures { let out = stream (K.bytes sink.old) (K.bytes sink.new) (K.fault_count sink.old) (K.fault_count sink.new) in
        IsDrilled seed clients count (P.seen device) (P.seen result.device) out result.status }
{
    match drill_requests(alloc, seed, clients, count) {
        Ok(requests) => drill_new(rt, alloc, clients, requests, sink, device, gate),
        Err(_) => Done {
            status: print_stop(sink, &Stop::Memory),
            device,
        },
    }
}

/// Makes the region, and runs requests on it.
fn drill_new<R: Wait + Threads + Sync, K: Sink, P: Pmem + Send, G: Gate>(
    rt: &R,
    alloc: Global,
    clients: u32,
    requests: Requests,
    sink: &mut K,
    device: P,
    gate: &G,
) -> Done<P>
    requires some_clients { 1 ≤ clients }
    requires few_clients { clients ≤ 16 }
    requires asks { All (IsAskOf Map clients) requests.asks.items }
    requires few { length requests.asks.items ≤ MOST_REQUESTS }
    ensures { let out = stream (K.bytes sink.old) (K.bytes sink.new) (K.fault_count sink.old) (K.fault_count sink.new) in
        DrillsNew (drill_head clients) (P.seen device) (P.seen result.device) requests.asks.items out result.status }
{
    let head = Header {
        kind: Kind::Map,
        clients,
        size: DRILL_SIZE,
    };
    match AnyEngine::fresh(alloc, &head, device) {
        Ok(engine) => drill_on(rt, alloc, engine, requests, sink, gate),
        Err(refused) => refuse(sink, refused),
    }
}

/// Runs requests over an engine that was just made, and prints what they came to.
fn drill_on<R: Wait + Threads + Sync, K: Sink, P: Pmem + Send, G: Gate>(
    rt: &R,
    alloc: Global,
    engine: AnyEngine<P>,
    requests: Requests,
    sink: &mut K,
    gate: &G,
) -> Done<P>
    requires sure { (view_of engine).sure ≡ true }
    requires few_clients { (view_of engine).standing.clients ≤ 16 }
    requires unwritten { version_sum (view_of engine).standing.state ≡ 0 }
    requires asks { All (IsAskOf (view_of engine).standing.kind (view_of engine).standing.clients) requests.asks.items }
    requires few { length requests.asks.items ≤ MOST_REQUESTS }
    ensures { let out = stream (K.bytes sink.old) (K.bytes sink.new) (K.fault_count sink.old) (K.fault_count sink.new) in
        DrillsOn (view_of engine) (P.seen result.device) requests.asks.items out result.status
        ⊎ ((P.seen result.device ≡ (view_of engine).device) × IsSaid out (stop_text Memory) (stop_status Memory) result.status) }
{
    match serve(rt, alloc, engine, requests, gate) {
        Ok((engine, served)) => {
            let versions = versions_of(&engine);
            let status = print_summary(sink, &served, versions);
            Done {
                status,
                device: engine.close(),
            }
        }
        Err(engine) => Done {
            status: print_stop(sink, &Stop::Memory),
            device: engine.close(),
        },
    }
}

/// The sum of the versions of an engine's registers. What isn't a map has none.
fn versions_of<P: Pmem>(engine: &AnyEngine<P>) -> u64
    requires { version_sum (view_of engine.now).standing.state < 2 ^ 64 }
    ensures { result ≡ version_sum (view_of engine.now).standing.state }
{
    match engine {
        AnyEngine::Map(comb) => version_sum(comb.object()),
        AnyEngine::Stack(comb) => no_versions(comb.kind(), comb),
        AnyEngine::Heap(comb) => no_versions(comb.kind(), comb),
        AnyEngine::Queue(queue) => no_versions(queue.kind(), queue),
    }
}

/// The versions of an engine whose object isn't a map.
fn no_versions<E: Engine>(kind: Kind, engine: &E) -> u64
    requires kind { kind ≡ (E.seen engine.now).standing.kind }
    requires other { kind ≢ Map }
    ensures { result ≡ version_sum (E.seen engine.now).standing.state }
{
    let _ = engine.clients();
    0
}

/// The sum of the versions of a map's registers.
fn version_sum(map: &RegMap) -> u64
    requires { version_sum (Registers map.now) < 2 ^ 64 }
    ensures { result ≡ version_sum (Registers map.now) }
{
    let mut sum = 0;
    for key in 0..map.size() {
        sum += map.register(key).1;
    }
    sum
}
