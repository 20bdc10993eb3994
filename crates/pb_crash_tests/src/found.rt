//! What an image represents.
ghost use Rattle.std.specs.Prelude.{◌<◌};

use pb_image::Image;
use pb_layout::{LayoutFault, count_line, header_of, kept_in_slot, record_line, record_of};
use pb_map::RegMap;
use pb_object::Object;
use pb_pmem::Line;
use pb_region_fixtures::{GET, HEAD, NONE, PUT};
use std::alloc::Global;
use std::process::Abort;

/// What the lines of an image represent.
#[derive(Clone, Copy, PartialEq, Eq)]
pub enum Found {
    /// There is no region.
    Nothing,
    /// The format refuses the region, or its header is another than the worked one's.
    Damaged,
    /// The worked region after so many rounds: its last requests with their replies, and each register's value and version.
    Round(u64),
    /// The format allows the region, but it has other requests or registers.
    Other,
}

/// Reads an image, by the checks of a region in their order.
pub fn read_image(rt: &impl Abort, alloc: Global, image: &Image) -> Found {
    match header_of(&image.line(0)) {
        Err(LayoutFault::NoMagic) => Found::Nothing,
        Ok(HEAD) => read_region(rt, alloc, image),
        _ => Found::Damaged,
    }
}

// The checks after that of the header.
fn read_region(rt: &impl Abort, alloc: Global, image: &Image) -> Found {
    let rounds = image.line(1);
    let round = rounds.words[0];
    if rounds != count_line(round) || image.line(2) != Line::default() {
        return Found::Damaged;
    }
    let record = ten_lines(image, record_line(&HEAD, 0, (round % 2) as u32));
    if record_of(&HEAD, 0, round, &record).is_err() {
        return Found::Damaged;
    }
    match registers_of(rt, alloc, &record[9]) {
        None => Found::Damaged,
        Some(registers) => {
            if has_kept(round, &record) && registers == worked_registers(round) {
                Found::Round(round)
            } else {
                Found::Other
            }
        }
    }
}

// The slots of a record keep what the worked log has asked by a round, the newest first.
fn has_kept(round: u64, record: &[Line; 10]) -> bool {
    let (first, second) = match round {
        0 => (NONE, NONE),
        1 => (PUT, NONE),
        2 => (GET, PUT),
        _ => return false,
    };
    for slot in 2..8 {
        if kept_in_slot(record, 0, slot) != NONE {
            return false;
        }
    }
    kept_in_slot(record, 0, 0) == first && kept_in_slot(record, 0, 1) == second
}

// The registers' values and versions in the object's line. None where the format refuses it.
fn registers_of(rt: &impl Abort, alloc: Global, line: &Line) -> Option<[(u64, u64); 4]> {
    let mut map = RegMap::fresh(alloc, 4).expect(rt, "memory");
    if map.take_lines(&[*line]).is_err() {
        return None;
    }
    Some([
        map.register(0),
        map.register(1),
        map.register(2),
        map.register(3),
    ])
}

// The registers that the worked log has written by a round.
fn worked_registers(round: u64) -> [(u64, u64); 4] {
    let last = if round == 0 { (0, 0) } else { (77, 1) };
    [(0, 0), (0, 0), (0, 0), last]
}

// The lines from one on.
fn ten_lines(image: &Image, first: u32) -> [Line; 10]
    requires { first < 100 }
{
    let mut lines = [Line::default(); 10];
    for place in 0..10 {
        lines[place] = image.line(first + place as u32);
    }
    lines
}
