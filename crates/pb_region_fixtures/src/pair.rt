//! The calls of a pair on a device in memory, where what they ask for holds.
ghost use Rattle.std.specs.Prelude.{◌≡◌, ◌↔◌, ◌<◌, IfOk, IsTrue};
ghost use Rattle.pb_object.specs.Standing.{side_count};
ghost use Rattle.pb_pair.specs.declared.known.Known.TheVariants.{Opened};

use crate::worked_log::{HEAD, record};
use pb_image::Image;
use pb_layout::{Header, record_len, record_of};
use pb_object::Kind;
use pb_pair::{Pair, Refused, Why};
use pb_pmem::{DeviceFault, Line};
use std::alloc::Global;

/// Formats a device as a map. None where these lines are no first record of one.
pub fn format_map(
    alloc: Global,
    device: Image,
    head: &Header,
    first: &[Line],
) -> Option<Result<Pair<Image>, Refused<Image>>> {
    if head.kind != Kind::Map || first.len() != record_len(head) as usize {
        return None;
    }
    if record_of(head, 0, 0, first).is_err() {
        return None;
    }
    Some(Pair::format(alloc, device, head, first, &[]))
}

// Whether an object has this side.
fn has_side(head: &Header, side: u32) -> bool
    ensures { IsTrue result ↔ (side < side_count head.now.kind) }
{
    match head.kind {
        Kind::Map => side < 1,
        Kind::Stack => side < 1,
        Kind::Heap => side < 1,
        Kind::Queue => side < 2,
    }
}

/// Stores the next record of a side. None where the pair isn't sure, or these lines are no next record of the side.
pub fn store(pair: &mut Pair<Image>, side: u32, lines: &[Line]) -> Option<Result<(), DeviceFault>> {
    let head = pair.header();
    if !pair.sure() || !has_side(&head, side) {
        return None;
    }
    let round = pair.round(side);
    if round >= 99 || lines.len() != record_len(&head) as usize {
        return None;
    }
    if record_of(&head, side, round + 1, lines).is_err() {
        return None;
    }
    Some(pair.store(side, lines))
}

/// Opens a device.
pub fn open(alloc: Global, device: Image) -> Result<Pair<Image>, Why>
    ensures { IfOk result (λ pair. pair.known ≡ Opened) }
{
    match Pair::open(alloc, device) {
        Ok(pair) => Ok(pair),
        Err(refused) => Err(refused.why),
    }
}

/// Formats a device as the worked region.
pub fn format(alloc: Global, device: Image) -> Option<Result<Pair<Image>, Refused<Image>>> {
    format_map(alloc, device, &HEAD, &record(0))
}

/// How many rounds of the worked region a pair tells. None where it is of another region.
pub fn round_of(pair: &Pair<Image>) -> Option<u64> {
    if pair.header() != HEAD {
        return None;
    }
    Some(pair.round(0))
}

/// The pair tells the worked region after so many rounds.
pub fn tells(pair: &Pair<Image>, round: u64) -> bool {
    if pair.header() != HEAD {
        return false;
    }
    pair.round(0) == round && pair.lines_of(0) == record(round).as_slice()
}

/// Stores the next record of the worked region. None where there is none.
pub fn store_next(pair: &mut Pair<Image>) -> Option<Result<(), DeviceFault>> {
    match round_of(pair) {
        Some(0) => store(pair, 0, &record(1)),
        Some(1) => store(pair, 0, &record(2)),
        _ => None,
    }
}
