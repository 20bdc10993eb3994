//! The slots of a client in a record: its last recorded requests, the newest first.
ghost use Rattle.std.specs.Prelude.{◌≡◌, ◌+◌, ◌*◌, ◌<◌, length, slice_index_or};
ghost use Rattle.pb_object.specs.declared.limits.TheConstants.{MOST_CLIENTS};
ghost use Rattle.pb_object.specs.declared.kind.Kind.TheVariants.{Queue};
ghost use Rattle.pb_object.specs.Request.{none_kept};
ghost use Rattle.pb_layout.specs.ClientLine.{kept_in};
ghost use Rattle.pb_layout.specs.Record.{slot_line_at, kept_in_slots};
ghost use Rattle.pb_layout.specs.Represents.{newest_of_two};
ghost use Rattle.pb_layout.specs.Slots.{PutsInFront, AreClientSlots, newer_of};

use crate::client::{client_line, kept_of_line};
use pb_object::{KEPT_REQUESTS, Kept};
use pb_pmem::Line;

/// Puts a request in front of a client's slots: they are those of the record before, moved on by one, of which the last one goes.
///
/// The client's slots are lines 1 + 8 c to 8 + 8 c, where c is its number. They are copied as they are, and other lines stay.
pub fn put_in_front(before: &[Line], client: u32, kept: &Kept, lines: &mut [Line])
    requires client { client < MOST_CLIENTS }
    requires before { KEPT_REQUESTS * client + KEPT_REQUESTS < length before.now }
    requires room { KEPT_REQUESTS * client + KEPT_REQUESTS < length lines.old }
    ensures { PutsInFront before.now client kept.now lines.old lines.new }
{
    let first = 1 + (KEPT_REQUESTS * client) as usize;
    lines[first] = client_line(kept);
    for slot in 1..KEPT_REQUESTS as usize {
        lines[first + slot] = before[first + slot - 1];
    }
}

/// The request in a client's slot. Number 0 means that the slot is empty.
pub fn kept_in_slot(lines: &[Line], client: u32, slot: u32) -> Kept
    requires client { client < MOST_CLIENTS }
    requires slot { slot < KEPT_REQUESTS }
    requires room { KEPT_REQUESTS * client + KEPT_REQUESTS < length lines.now }
    ensures { result ≡ kept_in (slot_line_at lines.now client slot) }
{
    kept_of_line(&lines[1 + (KEPT_REQUESTS * client + slot) as usize])
}

/// The request at a place among those of a queue's client, the newest first: those of its puts in one record and of its takes in another.
///
/// Number 0 means that there are no more.
pub fn kept_of_both(puts: &[Line], takes: &[Line], client: u32, place: u32) -> Kept
    requires client { client < MOST_CLIENTS }
    requires place { place < KEPT_REQUESTS }
    requires puts_room { KEPT_REQUESTS * client + KEPT_REQUESTS < length puts.now }
    requires takes_room { KEPT_REQUESTS * client + KEPT_REQUESTS < length takes.now }
    requires puts { AreClientSlots Queue 0 puts.now client }
    requires takes { AreClientSlots Queue 1 takes.now client }
    ensures { let newest = newest_of_two KEPT_REQUESTS (kept_in_slots puts.now client) (kept_in_slots takes.now client) in
        result ≡ slice_index_or newest place none_kept }
{
    let mut puts_before = 0;
    let mut takes_before = 0;
    for _ in 0..place {
        let put = kept_in_slot(puts, client, puts_before);
        let take = kept_in_slot(takes, client, takes_before);
        if put.number < take.number {
            takes_before += 1;
        } else {
            puts_before += 1;
        }
    }
    newer(
        kept_in_slot(puts, client, puts_before),
        kept_in_slot(takes, client, takes_before),
    )
}

fn newer(put: Kept, take: Kept) -> Kept
    ensures { result ≡ newer_of put take }
{
    if put.number < take.number { take } else { put }
}
