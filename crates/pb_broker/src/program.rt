//! The call that does all that the program does.
ghost use Rattle.std.specs.Prelude.{◌≡◌, MatchResult};
ghost use Rattle.pb_script.specs.Command.{texts};
ghost use Rattle.pb_report.specs.OutcomeText.{outcomes_text};
ghost use Rattle.pb_broker.specs.declared.stop.Stop.TheVariants.{Usage};
ghost use Rattle.pb_broker.specs.Call.{Call, IsSaid};
ghost use Rattle.pb_broker.specs.Recovery.{IsRecoverable};
ghost use Rattle.pb_broker.specs.Texts.{run_status, stop_status, stop_text};
ghost use Rattle.pb_broker.specs.Top.{IsAnswered};
ghost use Rattle.pb_broker.specs.Stream.{stream};

use crate::command::Ran;
use crate::drill::drill;
use crate::fresh::fresh;
use crate::print::{print, print_stop};
use crate::replays::replay;
use crate::reports::report;
use crate::run::run;
use crate::status::Status;
use crate::stop::Stop;
use pb_io::{Sink, Source};
use pb_layout::Header;
use pb_pmem::Pmem;
use pb_script::{Command, parse_words};
use pb_shared::Gate;
use std::alloc::Global;
use std::sync::Wait;
use std::thread::Threads;

/// How a call of the program ended.
#[derive(Drop)]
pub struct Done<P: Drop> {
    /// How it ended.
    pub status: Status,
    /// The device that the call was given, as it left it.
    pub device: P,
}

/// Does what the words say.
///
/// - `fresh KIND CLIENTS SIZE` makes a region on a device that has none, and runs the source's script on it.
/// - `run` opens the device's region, settles it, and runs the source's script on it.
/// - `report` prints what the device's region holds. It reads no source and writes nothing to the device.
/// - `replay KIND CLIENTS SIZE` plays the source's schedule through the protocol on plain data, and prints its answers and the report of
///   what is left. It doesn't touch the device.
/// - `drill SEED CLIENTS COUNT` makes a region of a map of 64 registers as `fresh` does, runs a script on it that is made from the seed,
///   with so many requests of each client, and prints sums of what they came to. It reads no source.
///
/// Any other words are no command. The words are judged first, then the source is read and its request lines are counted;
/// its lines are judged before a region is made, and behind the opening of one. Then the script is run, by a worker for each client on a
/// thread of its own, and its outcomes are written in the script's order. All memory is taken before the first request is asked for:
/// where it runs out a region may have been made, or settled, but no request was applied.
///
/// Each new request is durable before its outcome is written. Where the device tells its log and was ready to be opened,
/// each image that a crash may leave represents the region after some of the requests, every answered one among them; or,
/// until the first sync, what it might represent before the call. One of a client's last eight requests that is asked
/// again under its number is answered again, and none is applied twice.
pub fn top<R: Wait + Threads + Sync, S: Source, K: Sink, P: Pmem + Send, G: Gate>(
    rt: &R,
    alloc: Global,
    words: &[String],
    source: &mut S,
    sink: &mut K,
    device: P,
    gate: &G,
) -> Done<P>
    ensures recovers { let out = stream (K.bytes sink.old) (K.bytes sink.new) (K.fault_count sink.old) (K.fault_count sink.new) in
        IsRecoverable (texts words.now) (P.seen device) (P.seen result.device) out }
    ensures answered { let call : Call = record {
      read = stream (S.rest source.old) (S.rest source.new) (S.fault_count source.old) (S.fault_count source.new);
      before = P.seen device;
      after = P.seen result.device;
    } in
        let out = stream (K.bytes sink.old) (K.bytes sink.new) (K.fault_count sink.old) (K.fault_count sink.new) in
        IsAnswered (texts words.now) call out result.status }
{
    match parse_words(words) {
        Some(
            Command::Fresh {
                kind,
                clients,
                size,
            },
        ) => {
            let head = Header {
                kind,
                clients,
                size,
            };
            finish(sink, fresh(rt, alloc, &head, source, device, gate))
        }
        Some(Command::Run) => finish(sink, run(rt, alloc, source, device, gate)),
        Some(Command::Report) => report(alloc, sink, device),
        Some(
            Command::Replay {
                kind,
                clients,
                size,
            },
        ) => Done {
            status: replay(alloc, kind, clients, size, source, sink),
            device,
        },
        Some(
            Command::Drill {
                seed,
                clients,
                count,
            },
        ) => drill(rt, alloc, seed, clients, count, sink, device, gate),
        None => no_command(sink, device),
    }
}

/// Prints what a run came to.
fn finish<K: Sink, P: Pmem>(sink: &mut K, ran: Ran<P>) -> Done<P>
    ensures said { let out = stream (K.bytes sink.old) (K.bytes sink.new) (K.fault_count sink.old) (K.fault_count sink.new) in
        MatchResult ran.served
        (λ requests. IsSaid out (outcomes_text requests.asks.items requests.outcomes.items) (run_status requests.outcomes.items) result.status)
        (λ stop. IsSaid out (stop_text stop) (stop_status stop) result.status) }
    ensures device { P.seen result.device ≡ P.seen ran.device }
{
    let status = print(sink, &ran.served);
    Done {
        status,
        device: ran.device,
    }
}

fn no_command<K: Sink, P: Pmem>(sink: &mut K, device: P) -> Done<P>
    ensures said { let out = stream (K.bytes sink.old) (K.bytes sink.new) (K.fault_count sink.old) (K.fault_count sink.new) in
        IsSaid out (stop_text Usage) (stop_status Usage) result.status }
    ensures device { P.seen result.device ≡ P.seen device }
{
    Done {
        status: print_stop(sink, &Stop::Usage),
        device,
    }
}
