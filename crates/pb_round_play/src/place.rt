//! Where a side's records stand.
ghost use Rattle.std.specs.Prelude.{◌≡◌, ◌%◌, ◌<◌, length};
ghost use Rattle.pb_pmem.specs.declared.line.TheConstants.{LINES};
ghost use Rattle.pb_object.specs.declared.kind.Kind.TheVariants.{Queue};
ghost use Rattle.pb_object.specs.Standing.{side_count};
ghost use Rattle.pb_layout.specs.Header.{record_length};
ghost use Rattle.pb_layout.specs.Region.{record_place, cell_place};
ghost use Rattle.pb_layout.specs.Represents.{record_in_use};

use pb_layout::{Header, cell_line, record_len, record_line};
use pb_pmem::Line;

/// The device's line at which a side's record begins after so many rounds.
pub fn place_of(head: &Header, side: u32, rounds: u64) -> u32
    requires { side < side_count head.now.kind }
    ensures { result ≡ record_place head.now side (rounds % 2) }
{
    record_line(head, side, (rounds % 2) as u32)
}

/// The lines of a side's record in use after so many rounds.
pub fn record<'a>(lines: &'a [Line], head: &Header, side: u32, rounds: u64) -> &'a [Line]
    requires side { side < side_count head.now.kind }
    requires whole { length lines.now ≡ LINES }
    ensures is { result.now ≡ record_in_use lines.now head.now side rounds }
    ensures long { length result.now ≡ record_length head.now }
{
    let length = record_len(head) as usize;
    let rest = lines.split_at(place_of(head, side, rounds) as usize).1;
    rest.split_at(length).0
}

/// The device's line that holds the cell of a queue's position: that of its place among as many as the queue's size.
pub fn cell_of(head: &Header, position: u64) -> u32
    requires { head.now.kind ≡ Queue }
    ensures is { result ≡ cell_place head.now position }
    ensures inside { result < LINES }
{
    let place = position % u64::from(head.size);
    cell_line(head, place)
}
