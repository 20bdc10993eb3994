//! Ten requests of one client, of which the last eight are kept.
use pb_device_fixtures::left_at;
use pb_image::Image;
use pb_layout::kept_in_slot;
use pb_object::{Kept, Op, Reply};
use pb_pmem::Line;
use pb_region_fixtures::{HEAD, format, open, store};
use std::alloc::Global;
use std::process::Abort;

// The client's request of this number: `put 3 V`, with V greater by one each time.
fn put(number: u64) -> Kept {
    Kept {
        number,
        op: Op {
            code: 2,
            a: 3,
            b: number.saturating_add(70),
            c: 0,
        },
        reply: Reply {
            code: 2,
            value: if number == 1 {
                0
            } else {
                number.saturating_add(69)
            },
            extra: number,
        },
    }
}

// Its line.
fn slot(number: u64) -> Line {
    let Kept { number, op, reply } = put(number);
    Line {
        words: [
            number,
            op.code,
            op.a,
            op.b,
            op.c,
            reply.code,
            reply.value,
            reply.extra,
        ],
    }
}

// The record after the first `count` puts.
fn record(count: u64) -> [Line; 10] {
    let mut lines = [Line::default(); 10];
    lines[0] = Line {
        words: [count, 0, 0, 0, 0, 0, 0, 0],
    };
    for place in 0..8 {
        if count > place {
            lines[1 + place as usize] = slot(count - place);
        }
    }
    lines[9] = Line {
        words: [0, 0, 0, 0, 0, 0, count.saturating_add(70), count],
    };
    lines
}

// The device after ten puts.
fn ten_puts(rt: &impl Abort, alloc: Global) -> Image {
    let device = Image::zero(alloc, 256).expect(rt, "memory");
    let mut pair = match format(alloc, device) {
        Some(Ok(pair)) => pair,
        _ => panic!(rt; "the region isn't formatted"),
    };
    for round in 1..11 {
        assert!(rt; store(&mut pair, 0, &record(round)) == Some(Ok(())));
    }
    pair.close()
}

// The last eight of ten puts are read again, the newest first.
fn tells_the_last_eight(rt: &impl Abort, alloc: Global, device: Image) {
    let pair = open(alloc, device).expect(rt, "a region");
    assert!(rt; pair.header() == HEAD);
    let lines = pair.lines_of(0);
    assert!(rt; pair.round(0) == 10 && lines.len() == 10);
    for place in 0..8 {
        assert!(rt; kept_in_slot(lines, 0, place) == put(u64::from(10 - place)));
    }
}

#[test]
fn the_last_eight_of_ten_requests_are_read_again(rt: HostRuntime) {
    let device = ten_puts(&rt, rt.alloc());
    // A store writes the round, the slots so far and the register: the first all lines, and the others what differs.
    let moment = 25 + 15 + 9 + 10 + 11 + 12 + 13 + 14 + 15 + 15 + 15;
    assert!(rt; device.log().len() == moment);
    for left in left_at(rt.alloc(), &device, moment as u32, &[0, 1, 7]).expect(&rt, "memory") {
        tells_the_last_eight(&rt, rt.alloc(), left.device);
    }
    tells_the_last_eight(&rt, rt.alloc(), device);
}
