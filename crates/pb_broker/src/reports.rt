//! Printing what a region holds.
ghost use Rattle.std.specs.Prelude.{◌≡◌};
ghost use Rattle.pb_engines.specs.AnyEngine.{view_of};
ghost use Rattle.pb_broker.specs.Call.{IsSaid};
ghost use Rattle.pb_broker.specs.Stops.{stop_of_device};
ghost use Rattle.pb_broker.specs.Texts.{stop_text, stop_status};
ghost use Rattle.pb_broker.specs.Serving.{IsPrinted};
ghost use Rattle.pb_broker.specs.Top.{IsReported};
ghost use Rattle.pb_broker.specs.Stream.{stream};

use crate::print::{print_stop, status_of};
use crate::program::Done;
use crate::status::Status;
use crate::stop::Stop;
use pb_engines::AnyEngine;
use pb_io::Sink;
use pb_pair::Refused;
use pb_pmem::Pmem;
use pb_region_report::{Unwritten, write_report};
use std::alloc::Global;

/// Prints what the device's region holds. It writes nothing to the device.
///
/// What was stored and is in doubt since a call of the device failed may be printed though it isn't durable yet.
pub fn report<K: Sink, P: Pmem>(alloc: Global, sink: &mut K, device: P) -> Done<P>
    ensures { let out = stream (K.bytes sink.old) (K.bytes sink.new) (K.fault_count sink.old) (K.fault_count sink.new) in
        IsReported (P.seen device) (P.seen result.device) out result.status }
{
    match AnyEngine::open(alloc, device) {
        Ok(engine) => Done {
            status: print_report(alloc, sink, &engine),
            device: engine.close(),
        },
        Err(refused) => refuse(sink, refused),
    }
}

/// Prints what an engine last knew for sure.
fn print_report<K: Sink, P: Pmem>(alloc: Global, sink: &mut K, engine: &AnyEngine<P>) -> Status
    ensures { let out = stream (K.bytes sink.old) (K.bytes sink.new) (K.fault_count sink.old) (K.fault_count sink.new) in
        IsPrinted (view_of engine.now).standing out result }
{
    match write_report(alloc, sink, engine) {
        Ok(()) => status_of(sink, Ok(()), Status::Done),
        Err(Unwritten::Memory) => print_stop(sink, &Stop::Memory),
        Err(Unwritten::Sink) => Status::WriteFault,
    }
}

/// Prints why a region wasn't opened.
pub fn refuse<K: Sink, P: Pmem>(sink: &mut K, refused: Refused<P>) -> Done<P>
    ensures said { let out = stream (K.bytes sink.old) (K.bytes sink.new) (K.fault_count sink.old) (K.fault_count sink.new) in
        IsSaid out (stop_text (stop_of_device refused.why)) (stop_status (stop_of_device refused.why)) result.status }
    ensures device { P.seen result.device ≡ P.seen refused.device }
{
    Done {
        status: print_stop(sink, &Stop::of_device(&refused.why)),
        device: refused.device,
    }
}
