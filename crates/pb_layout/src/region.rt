//! Where the parts of a region stand on the device.
ghost use Rattle.std.specs.Prelude.{◌≡◌, ◌<◌};
ghost use Rattle.pb_object.specs.declared.kind.Kind.TheVariants.{Queue};
ghost use Rattle.pb_object.specs.ObjectLines.{object_line_count};
ghost use Rattle.pb_object.specs.Standing.{side_count};
ghost use Rattle.pb_layout.specs.Shape.{IsHeader};
ghost use Rattle.pb_layout.specs.Header.{record_length, old_record_length, first_record_line, old_first_record_line};
ghost use Rattle.pb_layout.specs.Region.{record_place, cell_place};

use crate::header::Header;
use pb_object::{KEPT_REQUESTS, Kind};

/// How many lines a record has: its round, eight slots for each client, and the object's lines of one side.
pub fn record_len(head: &Header) -> u32
    ensures length { result ≡ record_length head.now }
    ensures valid { IsHeader head.now }
{
    1 + KEPT_REQUESTS * head.clients + object_lines(head)
}

/// How many lines a record of the first version of the format has: it has one line for each client.
pub fn old_record_len(head: &Header) -> u32
    ensures { result ≡ old_record_length head.now }
{
    1 + head.clients + object_lines(head)
}

/// How many object lines a record has.
fn object_lines(head: &Header) -> u32
    ensures { result ≡ object_line_count head.now.kind head.now.size }
{
    match head.kind {
        Kind::Map => (head.size + 3) / 4,
        Kind::Stack => (head.size + 7) / 8 + 1,
        Kind::Heap => (head.size + 7) / 8 + 1,
        Kind::Queue => 1,
    }
}

/// The line at which the records begin: after those of the first version, two for each side, whose lines aren't looked at.
pub fn first_record(head: &Header) -> u32
    ensures { result ≡ first_record_line head.now }
{
    old_first_record(head) + 2 * head.kind.sides() * old_record_len(head)
}

/// The line at which the records of the first version begin: after the header and the round numbers, and after a queue's cells.
pub fn old_first_record(head: &Header) -> u32
    ensures { result ≡ old_first_record_line head.now }
{
    match head.kind {
        Kind::Map => 3,
        Kind::Stack => 3,
        Kind::Heap => 3,
        Kind::Queue => 3 + head.size,
    }
}

/// The device's line at which a record begins. A side has two records, of which the round number's parity says the one in use.
pub fn record_line(head: &Header, side: u32, which: u32) -> u32
    requires side { side < side_count head.now.kind }
    requires which { which < 2 }
    ensures { result ≡ record_place head.now side which }
{
    first_record(head) + (2 * side + which) * record_len(head)
}

/// The device's line that holds the cell of a queue's position. Positions that are a size apart share a cell.
pub fn cell_line(head: &Header, position: u64) -> u32
    requires { head.now.kind ≡ Queue }
    ensures { result ≡ cell_place head.now position }
{
    3 + (position % u64::from(head.size)) as u32
}
