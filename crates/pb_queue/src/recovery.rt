//! Reading what a queue's region holds beyond what opening judged, and judging it.
ghost use Rattle.std.specs.Prelude.{◌≡◌, ◌↔◌, ℕ, ◌+◌, ◌-◌, ◌*◌, ◌/◌, ◌<◌, ◌≤◌, IsTrue, MatchOption, length, IfOk, IfErr, OnOk};
ghost use Rattle.pb_object.specs.declared.limits.TheConstants.{MOST_CLIENTS};
ghost use Rattle.pb_pmem.specs.declared.line.TheConstants.{LINES};
ghost use Rattle.pb_object.specs.declared.kind.Kind.TheVariants.{Queue};
ghost use Rattle.pb_object.specs.ObjectLines.{IsAllowedLine, IsFirstRefused};
ghost use Rattle.pb_layout.specs.Header.{slot_count, record_length};
ghost use Rattle.pb_layout.specs.Record.{IsFirstWithout};
ghost use Rattle.pb_layout.specs.Represents.{IsApart};
ghost use Rattle.pb_pmem.specs.Lines.{line_at};
ghost use Rattle.pb_pair.specs.Open.{IsOpened};
ghost use Rattle.pb_pair.specs.View.{at_side};
ghost use Rattle.pb_object.specs.Queue.{last_position};
ghost use Rattle.pb_object.specs.Standing.{side_count};
ghost use Rattle.pb_queue.specs.Items.{empty_items};
ghost use Rattle.pb_queue.specs.Recovery.{place_of_record, AreQueueRecords, IsBadRecordLine, LacksNumber, HasReadCells, IsCellRefusal, IsRecovered, IsRecoveryRefusal};

use crate::items::Items;
use pb_layout::{Header, cell_line, cell_of, record_line};
use pb_object::{KEPT_REQUESTS, LAST_POSITION, is_count_line};
use pb_pair::{Pair, Why};
use pb_pmem::{Line, Pmem};
use std::alloc::Global;

/// Reads the items that an opened pair's region holds, and makes the checks of the region that
/// opening left. Writes nothing.
///
/// `Damaged` comes with the first line of the region that the format refuses, and `Device` where a
/// read failed: then the pair has failed.
pub fn recover<P: Pmem>(alloc: Global, pair: &mut Pair<P>) -> Result<Items, Why>
    requires opened { IsOpened pair.old.device pair.old }
    requires queue { pair.old.head.kind ≡ Queue }
    ensures same { OnOk result (pair.new ≡ pair.old) }
    ensures ok { IfOk result (IsRecovered pair.old) }
    ensures err { IfErr result (IsRecoveryRefusal pair.old pair.new) }
{
    if let Some(line) = first_bad_line(pair) {
        return Err(Why::Damaged { line });
    }
    let head = pair.header();
    let tail = counted(&head, pair.lines_of(0)).words[0];
    let taken = counted(&head, pair.lines_of(1)).words[0];
    let Ok(mut items) = Items::fresh(alloc, head.size, taken) else {
        return Err(Why::Memory);
    };
    read_cells(pair, &mut items, tail)?;
    items.confirm();
    Ok(items)
}

/// Reads the cells of the items that wait up to a position, in their order.
fn read_cells<P: Pmem>(pair: &mut Pair<P>, items: &mut Items, tail: u64) -> Result<(), Why>
    requires queue { pair.old.head.kind ≡ Queue }
    requires none { items.old ≡ empty_items items.old.size items.old.next.taken }
    requires fits { items.old.next.taken ≤ tail }
    requires room { tail - items.old.next.taken ≤ items.old.size }
    requires last { tail ≤ last_position }
    ensures same { OnOk result (pair.new ≡ pair.old) }
    ensures ok { OnOk result (HasReadCells pair.old tail items.old items.new) }
    ensures err { IfErr result (IsCellRefusal items.old.next.taken tail pair.old pair.new) }
{
    let head = pair.header();
    for position in items.next_tail()..tail {
        let line = match pair.read_cell(position) {
            Ok(line) => line,
            Err(fault) => return Err(Why::Device(fault)),
        };
        match cell_of(position, &line) {
            Some(item) => items.append(item),
            None => {
                let line = cell_line(&head, position);
                return Err(Why::Damaged { line });
            }
        }
    }
    Ok(())
}

/// The first line of the records in use that is refused: of the two counts, and then of the slots
/// of the takes.
fn first_bad_line<P: Pmem>(pair: &Pair<P>) -> Option<u32>
    requires { pair.now.head.kind ≡ Queue }
    ensures { MatchOption result (AreQueueRecords pair.now) (IsBadRecordLine pair.now) }
{
    let head = pair.header();
    let puts = pair.lines_of(0);
    let takes = pair.lines_of(1);
    if let Some(side) = first_refused_count(
        head.size,
        &[counted(&head, puts), counted(&head, takes)],
    ) {
        return Some(record_begin(pair, side) + 1 + KEPT_REQUESTS * head.clients);
    }
    match first_shared(puts, takes, head.clients) {
        Some(slot) => Some(record_begin(pair, 1) + 1 + slot),
        None => None,
    }
}

/// The line of the device at which a side's record in use begins.
fn record_begin<P: Pmem>(pair: &Pair<P>, side: u32) -> u32
    requires { side < side_count pair.now.head.kind }
    ensures place { result ≡ place_of_record pair.now side }
    ensures fits { result + record_length pair.now.head ≤ LINES }
{
    record_line(&pair.header(), side, (pair.round(side) % 2) as u32)
}

/// The last line of a queue's record, which counts its items.
fn counted(head: &Header, lines: &[Line]) -> Line
    requires queue { head.now.kind ≡ Queue }
    requires long { length lines.now ≡ record_length head.now }
    ensures { result ≡ line_at lines.now (1 + slot_count head.now) }
{
    lines[1 + (KEPT_REQUESTS * head.clients) as usize]
}

/// The first line that the format refuses of the two that count a queue's items: that of its tail,
/// and then that of its head.
fn first_refused_count(size: u32, lines: &[Line]) -> Option<u32>
    requires { length lines.now ≡ 2 }
    ensures { MatchOption result
        ((line : ℕ) → line < length lines.now → IsAllowedLine Queue size lines.now line)
        (IsFirstRefused Queue size lines.now) }
{
    if !is_count_line(LAST_POSITION as usize, &lines[0]) {
        return Some(0);
    }
    let tail = lines[0].words[0];
    let head = lines[1].words[0];
    if !is_count_line(LAST_POSITION as usize, &lines[1])
        || head > tail
        || tail - head > size as u64
    {
        return Some(1);
    }
    None
}

/// The first of so many slots of a record of takes whose number stands among its client's puts too.
fn first_shared(puts: &[Line], takes: &[Line], clients: u32) -> Option<u32>
    requires few { clients ≤ MOST_CLIENTS }
    requires puts { KEPT_REQUESTS * clients < length puts.now }
    requires takes { KEPT_REQUESTS * clients < length takes.now }
    ensures { MatchOption result
        ((slot : ℕ) → slot < KEPT_REQUESTS * clients → IsApart (at_side puts.now takes.now) slot)
        (IsFirstWithout (IsApart (at_side puts.now takes.now)) (KEPT_REQUESTS * clients)) }
{
    for slot in 0..KEPT_REQUESTS * clients {
        if !is_apart(puts, takes, slot as usize) {
            return Some(slot);
        }
    }
    None
}

/// Whether the number in a slot of a record of takes stands in no slot of the same client's puts,
/// or the slot is empty.
fn is_apart(puts: &[Line], takes: &[Line], slot: usize) -> bool
    requires takes { 1 + slot < length takes.now }
    requires puts { 8 * (slot / 8) + 8 < length puts.now }
    ensures { IsTrue result ↔ IsApart (at_side puts.now takes.now) slot }
{
    let number = takes[1 + slot].words[0];
    number == 0 || lacks_number(puts, slot / KEPT_REQUESTS as usize, number)
}

fn lacks_number(lines: &[Line], client: usize, number: u64) -> bool
    requires { 8 * client + 8 < length lines.now }
    ensures { IsTrue result ↔ LacksNumber lines.now client number }
{
    let first = 1 + KEPT_REQUESTS as usize * client;
    for slot in 0..KEPT_REQUESTS as usize {
        if lines[first + slot].words[0] == number {
            return false;
        }
    }
    true
}
