//! Writing the report of an engine of any kind.
ghost use Rattle.std.specs.Prelude.{◌≡◌, IfOk, OnOk, IfErr, OnErr};
ghost use Rattle.std.specs.Io.KnownBytes.{Appends};
ghost use Rattle.pb_pmem.specs.Count.{HasCause};
ghost use Rattle.pb_io.specs.SinkBytes.{AppendsSome};
ghost use Rattle.pb_engines.specs.AnyEngine.{view_of};
ghost use Rattle.pb_region_report.specs.ReportText.{report_text};
ghost use Rattle.pb_region_report.specs.Writing.{IsUnwritten, ListsHeap, told};

use crate::report::{write_heap, write_map, write_queue, write_stack};
use crate::unwritten::Unwritten;
use pb_engines::AnyEngine;
use pb_io::{Sink, SinkFault};
use pb_pmem::Pmem;
use std::alloc::{AllocError, Global};

/// Writes the report of a region, as its engine last knew it for sure. Memory is taken for a heap's items alone, before anything is
/// written.
pub fn write_report<K: Sink, P: Pmem>(
    alloc: Global,
    sink: &mut K,
    engine: &AnyEngine<P>,
) -> Result<(), Unwritten>
    ensures ok { OnOk result (Appends (K.bytes sink.old) (K.bytes sink.new) (report_text (view_of engine.now).standing)) }
    ensures count { OnOk result (K.fault_count sink.new ≡ K.fault_count sink.old) }
    ensures err { IfErr result
        (IsUnwritten (K.bytes sink.old) (K.bytes sink.new) (K.fault_count sink.old) (K.fault_count sink.new)
        (report_text (view_of engine.now).standing)) }
{
    let Ok(rising) = rising_items(alloc, engine) else {
        return Err(Unwritten::Memory);
    };
    told(write_prepared(sink, engine, &rising))
}

/// What a report takes memory for: a heap's items in rising order. Of other kinds nothing is listed.
pub fn rising_items<P: Pmem>(alloc: Global, engine: &AnyEngine<P>) -> Result<Vec<u64>, AllocError>
    ensures { IfOk result (λ rising. ListsHeap engine.now rising.items) }
{
    match engine {
        AnyEngine::Map(_) => Ok(Vec::new(alloc)),
        AnyEngine::Stack(_) => Ok(Vec::new(alloc)),
        AnyEngine::Heap(comb) => comb.object().rising(alloc),
        AnyEngine::Queue(_) => Ok(Vec::new(alloc)),
    }
}

/// Writes the report of a region, as its engine last knew it for sure, given what it takes memory for.
///
/// After an error some of the first bytes of the report are written.
pub fn write_prepared<K: Sink, P: Pmem>(
    sink: &mut K,
    engine: &AnyEngine<P>,
    rising: &[u64],
) -> Result<(), SinkFault>
    requires { ListsHeap engine.now rising.now }
    ensures ok { OnOk result (Appends (K.bytes sink.old) (K.bytes sink.new) (report_text (view_of engine.now).standing)) }
    ensures err { OnErr result (AppendsSome (K.bytes sink.old) (K.bytes sink.new) (report_text (view_of engine.now).standing)) }
    ensures cause { HasCause (K.fault_count sink.old) (K.fault_count sink.new) result }
{
    match engine {
        AnyEngine::Map(comb) => write_map(sink, comb),
        AnyEngine::Stack(comb) => write_stack(sink, comb),
        AnyEngine::Heap(comb) => write_heap(sink, comb, rising),
        AnyEngine::Queue(queue) => write_queue(sink, queue),
    }
}

// The answer of a call that takes no memory.
fn told(written: Result<(), SinkFault>) -> Result<(), Unwritten>
    ensures { result ≡ told written }
{
    match written {
        Ok(()) => Ok(()),
        Err(_) => Err(Unwritten::Sink),
    }
}
