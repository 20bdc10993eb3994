//! The requests of a script.
ghost use Rattle.std.specs.Prelude.{◌≡◌, ◌≤◌, length, true, IfOk, IfErr, All};
ghost use Rattle.pb_run.specs.Run.{HasRun};
ghost use Rattle.pb_object.specs.declared.kind.Kind.TheVariants.{Map};
ghost use Rattle.pb_script.specs.Command.{IsDrillWithin};
ghost use Rattle.pb_script.specs.Drill.{drill_asks};
ghost use Rattle.pb_script.specs.Script.{IsAskOf};
ghost use Rattle.pb_broker.specs.Comes.{IsScriptOf};
ghost use Rattle.pb_broker.specs.Serving.{IsNoScript};
ghost use Rattle.pb_broker.specs.declared.source.TheConstants.{SOURCE_LIMIT};

use crate::stop::Stop;
use pb_engine::Engine;
use pb_object::{Ask, Kind};
use pb_report::Outcome;
use pb_run::run_script;
use pb_script::{generate, parse_script};
use pb_shared::Gate;
use std::alloc::{AllocError, Global};
use std::sync::Wait;
use std::thread::Threads;

/// Requests, each with its outcome at the same place.
#[derive(Drop)]
pub struct Requests {
    pub asks: Vec<Ask>,
    pub outcomes: Vec<Outcome>,
    ghost same_length: { length outcomes.items ≡ length asks.items },
}

/// The requests of a source's script, with a place for each outcome.
pub fn read_requests(
    alloc: Global,
    bytes: &[u8],
    kind: Kind,
    clients: u32,
) -> Result<Requests, Stop>
    requires source { length bytes.now ≤ SOURCE_LIMIT }
    requires clients { clients ≤ 16 }
    ensures script { IfOk result (λ requests. IsScriptOf kind clients requests.asks.items bytes.now) }
    ensures asks { IfOk result (λ requests. All (IsAskOf kind clients) requests.asks.items) }
    ensures err { IfErr result (IsNoScript kind clients bytes.now) }
{
    let asks = parse_script(alloc, bytes, kind, clients)?;
    let outcomes = places(alloc, &asks)?;
    Ok(Requests { asks, outcomes })
}

/// The requests of a drill, with a place for each outcome.
pub fn drill_requests(
    alloc: Global,
    seed: u64,
    clients: u32,
    count: u32,
) -> Result<Requests, AllocError>
    requires { IsDrillWithin clients count }
    ensures script { IfOk result (λ requests. requests.asks.items ≡ drill_asks seed clients count) }
    ensures asks { IfOk result (λ requests. All (IsAskOf Map clients) requests.asks.items) }
{
    let asks = generate(alloc, seed, clients, count)?;
    let outcomes = places(alloc, &asks)?;
    Ok(Requests { asks, outcomes })
}

/// A place for the outcome of each of these requests.
fn places(alloc: Global, asks: &[Ask]) -> Result<Vec<Outcome>, AllocError>
    ensures { IfOk result (λ outcomes. length outcomes.items ≡ length asks.now) }
{
    vec![in alloc; Outcome::Left; asks.len()]
}

/// Runs requests over an engine that is sure, and writes their outcomes. Where memory runs out before the first of them the engine
/// comes back as it was.
pub fn serve<R: Wait + Threads + Sync, E: Engine + Send, G: Gate>(
    rt: &R,
    alloc: Global,
    engine: E,
    requests: Requests,
    gate: &G,
) -> Result<(E, Requests), E>
    requires sure { (E.seen engine).sure ≡ true }
    requires asks { All (IsAskOf (E.seen engine).standing.kind (E.seen engine).standing.clients) requests.asks.items }
    ensures asks { IfOk result (λ served. served.1.asks.items ≡ requests.asks.items) }
    ensures run { IfOk result
        (λ served. HasRun (E.seen engine) requests.asks.items (E.seen served.0) served.1.outcomes.items) }
    ensures err { IfErr result (λ refused. refused ≡ engine) }
{
    let Requests { asks, mut outcomes } = requests;
    match run_script(rt, alloc, engine, &asks, &mut outcomes, gate) {
        Ok(engine) => Ok((engine, Requests { asks, outcomes })),
        Err((_, engine)) => Err(engine),
    }
}
