//! A store writes the lines that differ from what the spare record is known to hold: a map of 1,024 registers for one client.
use pb_image::Image;
use pb_layout::Header;
use pb_object::Kind;
use pb_pair::Pair;
use pb_pmem::{Line, LogOp};
use pb_region_fixtures::{format_map, open, store};
use std::alloc::Global;
use std::process::Abort;

const HEAD: Header = Header {
    kind: Kind::Map,
    clients: 1,
    size: 1024,
};

// The puts, each into a register that was never put and is the first of its line: its key and its value.
const PUTS: [(u64, u64); 6] = [(0, 5), (4, 6), (8, 7), (12, 8), (16, 9), (20, 10)];

// Puts the client's next request in front of its slots, and the register into its line.
fn put(rt: &impl Abort, lines: &mut [Line], number: u64, (key, value): (u64, u64)) {
    assert!(rt; lines.len() == 265 && key < 1024);
    lines[0] = Line {
        words: [number, 0, 0, 0, 0, 0, 0, 0],
    };
    for slot in (1..8usize).rev() {
        lines[slot + 1] = lines[slot];
    }
    lines[1] = Line {
        words: [number, 2, key, value, 0, 2, 0, 1],
    };
    lines[9 + (key / 4) as usize] = Line {
        words: [value, 1, 0, 0, 0, 0, 0, 0],
    };
}

// Formats a device of zeros.
fn formatted(rt: &impl Abort, alloc: Global, lines: &[Line]) -> Pair<Image> {
    let device = Image::zero(alloc, 2048).expect(rt, "memory");
    match format_map(alloc, device, &HEAD, lines) {
        Some(Ok(pair)) => pair,
        _ => panic!(rt; "the region isn't formatted"),
    }
}

// Closes a pair, opens its device and settles it.
fn reopened(rt: &impl Abort, alloc: Global, pair: Pair<Image>) -> Pair<Image> {
    let mut pair = open(alloc, pair.close()).expect(rt, "a region");
    assert!(rt; !pair.sure());
    assert!(rt; pair.settle() == Ok(false));
    pair
}

// The log after the first so many puts. The pair is closed and opened after the third, where more follow.
fn log_after(rt: &impl Abort, alloc: Global, count: usize) -> Image {
    let mut lines = [Line::default(); 265];
    let mut pair = formatted(rt, alloc, &lines);
    assert!(rt; count <= PUTS.len());
    for place in 0..count {
        if place == 3 {
            pair = reopened(rt, alloc, pair);
        }
        put(rt, &mut lines, place as u64 + 1, PUTS[place]);
        assert!(rt; store(&mut pair, 0, &lines) == Some(Ok(())));
    }
    pair.close()
}

#[test]
fn each_store_makes_so_many_operations(rt: HostRuntime) {
    // The formatting makes 280 operations, the first puts 270, 10 and 11. Settling makes four. Then nothing is known of both records,
    // and the next puts make 270, 270 and 14.
    for (count, ops) in [
        (0, 280),
        (1, 550),
        (2, 560),
        (3, 571),
        (4, 845),
        (5, 1115),
        (6, 1129),
    ] {
        let device = log_after(&rt, rt.alloc(), count);
        assert!(rt; device.log().len() == ops, "{count} puts");
    }
}

// The lines that these operations write whole are these.
fn writes(ops: &[LogOp], lines: &[u32]) -> bool {
    let mut written = 0;
    for op in ops {
        if let LogOp::Whole { line, .. } = *op {
            if lines.get(written) != Some(&line) {
                return false;
            }
            written = written.saturating_add(1);
        }
    }
    written == lines.len()
}

#[test]
fn the_lines_that_differ_are_written_in_rising_order(rt: HostRuntime) {
    let device = log_after(&rt, rt.alloc(), 6);
    let log = device.log();
    assert!(rt; log.len() == 1129);
    // The records begin at the lines 519 and 784.
    assert!(rt; writes(&log[550..560], &[519, 520, 521, 528, 529]));
    assert!(rt; writes(&log[560..571], &[784, 785, 786, 787, 794, 795]));
    let last = [519, 520, 521, 522, 523, 524, 525, 532, 533];
    assert!(rt; writes(&log[1115..1129], &last));
}
