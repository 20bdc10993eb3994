//! Replaying a schedule.
ghost use Rattle.std.specs.Prelude.{◌≤◌, ◌++◌, MatchResult};
ghost use Rattle.pb_engines.specs.AnyEngine.{view_of};
ghost use Rattle.pb_region_report.specs.Writing.{ListsHeap};
ghost use Rattle.pb_region_report.specs.ReportText.{report_text};
ghost use Rattle.pb_replay.specs.AnswerText.{answers_text};
ghost use Rattle.pb_broker.specs.declared.status.Status.{Status};
ghost use Rattle.pb_broker.specs.Call.{IsSaid};
ghost use Rattle.pb_broker.specs.Comes.{StopsReplay};
ghost use Rattle.pb_broker.specs.Serving.{HasPlayed};
ghost use Rattle.pb_broker.specs.Stream.{stream};
ghost use Rattle.pb_broker.specs.Top.{IsPlayed};

use crate::print::{print_stop, status_of};
use crate::source::read_all;
use crate::status::Status;
use crate::stop::Stop;
use pb_io::{Sink, Source};
use pb_layout::Header;
use pb_object::Kind;
use pb_replay::{Played, play_schedule, write_played};
use std::alloc::Global;

/// Reads the source's schedule, and plays it for an object of this kind and size with so many clients: its events happen one after the
/// other in a world over a region that was just formatted. The answers and the report of what is left are printed.
///
/// All memory is taken before anything is printed.
pub fn replay<S: Source, K: Sink>(
    alloc: Global,
    kind: Kind,
    clients: u32,
    size: u32,
    source: &mut S,
    sink: &mut K,
) -> Status
    requires some_clients { 1 ≤ clients }
    requires few_clients { clients ≤ 16 }
    requires some_size { 1 ≤ size }
    requires small_size { size ≤ 1024 }
    ensures { let read = stream (S.rest source.old) (S.rest source.new) (S.fault_count source.old) (S.fault_count source.new) in
        let out = stream (K.bytes sink.old) (K.bytes sink.new) (K.fault_count sink.old) (K.fault_count sink.new) in
        IsPlayed (record { kind = kind; clients = clients; size = size }) read out result }
{
    let head = Header {
        kind,
        clients,
        size,
    };
    match play(alloc, &head, source) {
        Ok(played) => print_played(sink, &played),
        Err(stop) => print_stop(sink, &stop),
    }
}

/// Reads the source, and plays its schedule.
fn play<S: Source>(alloc: Global, head: &Header, source: &mut S) -> Result<Played, Stop>
    ensures { let read = stream (S.rest source.old) (S.rest source.new) (S.fault_count source.old) (S.fault_count source.new) in
        MatchResult result (HasPlayed head.now read) (StopsReplay head.now read) }
{
    let bytes = read_all(alloc, source)?;
    match play_schedule(alloc, head, &bytes) {
        Ok(played) => Ok(played),
        Err(fault) => Err(Stop::from(fault)),
    }
}

/// Prints what came of a schedule.
fn print_played<K: Sink>(sink: &mut K, played: &Played) -> Status
    requires { ListsHeap played.now.engine played.now.rising.items }
    ensures { let out = stream (K.bytes sink.old) (K.bytes sink.new) (K.fault_count sink.old) (K.fault_count sink.new) in
        IsSaid out (answers_text played.now.answers.items ++ report_text (view_of played.now.engine).standing) Status.Done result }
{
    let written = write_played(sink, played);
    status_of(sink, written, Status::Done)
}
