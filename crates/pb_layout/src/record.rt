//! A record's own lines: the line of its round and the slots of its clients.
ghost use Rattle.std.specs.Prelude.{◌≡◌, ◌↔◌, IsTrue, ◌+◌, ◌*◌, ◌<◌, ◌≤◌, OnOk, IfErr, MatchOption, length};
ghost use Rattle.pb_pmem.specs.Lines.{line_at};
ghost use Rattle.pb_object.specs.declared.limits.TheConstants.{MOST_CLIENTS};
ghost use Rattle.pb_layout.specs.Shape.{IsHeader};
ghost use Rattle.pb_layout.specs.Header.{record_length};
ghost use Rattle.pb_layout.specs.Record.{count_line_of, number_sum, Falls, IsSlot, AreSlots, AreSmall, IsFirstWithout, IsRecord, IsRecordFault};

use crate::client::client_of;
use crate::fault::LayoutFault;
use crate::header::Header;
use pb_object::{KEPT_REQUESTS, Kind};
use pb_pmem::Line;

/// The line of one number: a side's round number after the header, and a record's first line.
pub fn count_line(count: u64) -> Line
    ensures { result ≡ count_line_of count }
{
    Line {
        words: [count, 0, 0, 0, 0, 0, 0, 0],
    }
}

/// Judges the first line and the slots of a side's record that is to carry this round.
///
/// `BadRecord` names the first line that the format refuses, counted within the record: the first line, then each slot in order, and the
/// first line again where the round is greater than the sum of the clients' newest numbers.
pub fn record_of(head: &Header, side: u32, round: u64, lines: &[Line]) -> Result<(), LayoutFault>
    requires { length lines.now ≡ record_length head.now }
    ensures ok { OnOk result (IsRecord head.now side round lines.now) }
    ensures refused { IfErr result (IsRecordFault head.now side round lines.now) }
{
    if carries(&lines[0], round) {
        judge_slots(head, side, round, lines)
    } else {
        Err(LayoutFault::BadRecord { line: 0 })
    }
}

fn carries(line: &Line, round: u64) -> bool
    ensures { IsTrue result ↔ (line.now ≡ count_line_of round) }
{
    *line == count_line(round)
}

/// Judges the slots of a record that carries the round, and then the round.
fn judge_slots(head: &Header, side: u32, round: u64, lines: &[Line]) -> Result<(), LayoutFault>
    requires length { length lines.now ≡ record_length head.now }
    requires carries { line_at lines.now 0 ≡ count_line_of round }
    ensures ok { OnOk result (IsRecord head.now side round lines.now) }
    ensures refused { IfErr result (IsRecordFault head.now side round lines.now) }
{
    let slots = (KEPT_REQUESTS * head.clients) as usize;
    match first_bad_slot(head.kind, side, lines, slots) {
        Some(place) => Err(LayoutFault::BadRecord { line: 1 + place }),
        None => {
            if round > sum_numbers(lines, head.clients as usize) {
                Err(LayoutFault::BadRecord { line: 0 })
            } else {
                Ok(())
            }
        }
    }
}

/// The place of the first slot that the format refuses, of so many.
fn first_bad_slot(kind: Kind, side: u32, lines: &[Line], count: usize) -> Option<u32>
    requires room { 1 + count ≤ length lines.now }
    requires few { count ≤ KEPT_REQUESTS * MOST_CLIENTS }
    ensures { MatchOption result (AreSlots kind side lines.now count)
        (IsFirstWithout (IsSlot kind side lines.now) count) }
{
    for place in 0..count {
        if !is_slot(kind, side, lines, place) {
            return Some(place as u32);
        }
    }
    None
}

fn is_slot(kind: Kind, side: u32, lines: &[Line], place: usize) -> bool
    requires { 1 + place < length lines.now }
    ensures { IsTrue result ↔ IsSlot kind side lines.now place }
{
    client_of(kind, side, &lines[1 + place]).is_some() && falls(lines, place)
}

/// Whether the number in a slot is below that in the slot before it, where both are one client's and the slot isn't empty.
fn falls(lines: &[Line], place: usize) -> bool
    requires { 1 + place < length lines.now }
    ensures { IsTrue result ↔ Falls lines.now place }
{
    let number = lines[1 + place].words[0];
    place % KEPT_REQUESTS as usize == 0 || number == 0 || number < lines[place].words[0]
}

/// The sum of the newest numbers of so many clients.
fn sum_numbers(lines: &[Line], clients: usize) -> u64
    requires few { clients ≤ MOST_CLIENTS }
    requires room { KEPT_REQUESTS * clients < length lines.now }
    requires small { AreSmall lines.now clients }
    ensures { result ≡ number_sum lines.now clients }
{
    let mut sum = 0;
    for client in 0..clients {
        sum += lines[1 + KEPT_REQUESTS as usize * client].words[0];
    }
    sum
}
