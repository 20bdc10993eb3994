//! The reports of regions, one call for each kind of object.
ghost use Rattle.std.specs.Prelude.{◌≡◌, ◌++◌, OnOk, OnErr};
ghost use Rattle.std.specs.Io.KnownBytes.{Appends};
ghost use Rattle.pb_pmem.specs.Count.{HasCause};
ghost use Rattle.pb_object.specs.Object.{Rising};
ghost use Rattle.pb_object.specs.ObjectLines.{size_of};
ghost use Rattle.pb_io.specs.SinkBytes.{AppendsSome};
ghost use Rattle.pb_report.specs.Pieces.{section_of};
ghost use Rattle.pb_region_report.specs.ReportText.{head_text, region_text, report_text};

use crate::clients::ClientLines;
use crate::head::{comb_head, queue_head};
use crate::object_lines::{
    ItemLines, RegisterLines, RisingLines, WaitingLines, count_line, written_count,
};
use pb_comb::Comb;
use pb_engine::Engine;
use pb_heap::MinHeap;
use pb_io::{Sink, SinkFault};
use pb_map::RegMap;
use pb_object::Object;
use pb_pmem::Pmem;
use pb_queue::TwinQueue;
use pb_report::{Lines, Text, write_sections};
use pb_stack::Stack;

/// Writes the report of a map, as its engine last knew it for sure. It takes no memory.
///
/// After an error some of the first bytes of the report are written.
pub fn write_map<K: Sink, P: Pmem>(sink: &mut K, comb: &Comb<RegMap, P>) -> Result<(), SinkFault>
    ensures ok { OnOk result (Appends (K.bytes sink.old) (K.bytes sink.new) (report_text comb.now.standing)) }
    ensures err { OnErr result (AppendsSome (K.bytes sink.old) (K.bytes sink.new) (report_text comb.now.standing)) }
    ensures cause { HasCause (K.fault_count sink.old) (K.fault_count sink.new) result }
{
    let map = comb.object();
    let size = map.size();
    let count = count_line("registers", written_count(map));
    let head = comb_head(comb);
    write_region(sink, comb, &head, &count, &RegisterLines { map, size })
}

/// Writes the report of a stack, as its engine last knew it for sure. It takes no memory.
///
/// After an error some of the first bytes of the report are written.
pub fn write_stack<K: Sink, P: Pmem>(sink: &mut K, comb: &Comb<Stack, P>) -> Result<(), SinkFault>
    ensures ok { OnOk result (Appends (K.bytes sink.old) (K.bytes sink.new) (report_text comb.now.standing)) }
    ensures err { OnErr result (AppendsSome (K.bytes sink.old) (K.bytes sink.new) (report_text comb.now.standing)) }
    ensures cause { HasCause (K.fault_count sink.old) (K.fault_count sink.new) result }
{
    let stack = comb.object();
    let depth = stack.depth();
    let count = count_line("items", u64::from(depth));
    let head = comb_head(comb);
    write_region(sink, comb, &head, &count, &ItemLines { stack, depth })
}

/// Writes the report of a heap, as its engine last knew it for sure, given its items in rising order. It takes no memory.
///
/// After an error some of the first bytes of the report are written.
pub fn write_heap<K: Sink, P: Pmem>(
    sink: &mut K,
    comb: &Comb<MinHeap, P>,
    rising: &[u64],
) -> Result<(), SinkFault>
    requires { let state = comb.now.standing.state in state ≡ Rising (size_of state) rising.now }
    ensures ok { OnOk result (Appends (K.bytes sink.old) (K.bytes sink.new) (report_text comb.now.standing)) }
    ensures err { OnErr result (AppendsSome (K.bytes sink.old) (K.bytes sink.new) (report_text comb.now.standing)) }
    ensures cause { HasCause (K.fault_count sink.old) (K.fault_count sink.new) result }
{
    let count = count_line("items", rising.len() as u64);
    let head = comb_head(comb);
    write_region(sink, comb, &head, &count, &RisingLines { rising })
}

/// Writes the report of a queue, as its engine last knew it for sure. It takes no memory.
///
/// After an error some of the first bytes of the report are written.
pub fn write_queue<K: Sink, P: Pmem>(sink: &mut K, queue: &TwinQueue<P>) -> Result<(), SinkFault>
    ensures ok { OnOk result (Appends (K.bytes sink.old) (K.bytes sink.new) (report_text queue.now.standing)) }
    ensures err { OnErr result (AppendsSome (K.bytes sink.old) (K.bytes sink.new) (report_text queue.now.standing)) }
    ensures cause { HasCause (K.fault_count sink.old) (K.fault_count sink.new) result }
{
    let text = queue_head(queue);
    let head = queue.head();
    let tail = queue.tail();
    let count = count_line("items", tail - head);
    write_region(
        sink,
        queue,
        &text,
        &count,
        &WaitingLines { queue, head, tail },
    )
}

// Writes a report: its head, a line for each client, the object's count and the object's lines.
fn write_region<K: Sink, E: Engine, L: Lines>(
    sink: &mut K,
    engine: &E,
    head: &Text,
    count: &Text,
    lines: &L,
) -> Result<(), SinkFault>
    requires { head.now.bytes ≡ head_text (E.seen engine.now).standing }
    ensures ok { let object = section_of count.now.bytes (L.line_at lines.now) (L.line_count lines.now) in
        OnOk result (Appends (K.bytes sink.old) (K.bytes sink.new) (region_text (E.seen engine.now).standing ++ object)) }
    ensures err { let object = section_of count.now.bytes (L.line_at lines.now) (L.line_count lines.now) in
        OnErr result (AppendsSome (K.bytes sink.old) (K.bytes sink.new) (region_text (E.seen engine.now).standing ++ object)) }
    ensures cause { HasCause (K.fault_count sink.old) (K.fault_count sink.new) result }
{
    let clients = engine.clients();
    write_sections(sink, head, &ClientLines { engine, clients }, count, lines)
}
