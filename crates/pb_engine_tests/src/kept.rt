//! Ten requests of one client, of which the last eight are kept.
use crate::cases::MAP;
use crate::engines::{adopt, kept_at, made, round};
use arrayvec::ArrayVec;
use pb_comb::Comb;
use pb_image::Image;
use pb_map::RegMap;
use pb_object::{Ask, Kept, Op, Reply};
use std::process::Abort;

// `put 3 V`, with V greater by one each time.
fn put(number: u64) -> Op {
    Op {
        code: 2,
        a: 3,
        b: number.saturating_add(70),
        c: 0,
    }
}

// The client's request of this number: `was OLD VERSION`, with the value before and the number of puts.
fn kept(number: u64) -> Kept {
    let value = if number == 1 {
        0
    } else {
        number.saturating_add(69)
    };
    Kept {
        number,
        op: put(number),
        reply: Reply {
            code: 2,
            value,
            extra: number,
        },
    }
}

// After so many puts of client 1 its last eight are kept, the newest first, and behind them there is none.
fn keeps_eight(rt: &impl Abort, engine: &Comb<RegMap, Image>, count: u64) {
    for place in 0..8 {
        let want = if u64::from(place) < count {
            kept(count.saturating_sub(u64::from(place)))
        } else {
            Kept::default()
        };
        assert!(rt; kept_at(rt, engine, 1, place) == want, "{count} puts");
        assert!(rt; kept_at(rt, engine, 0, place) == Kept::default());
    }
}

// Client 1 asks for a put in a round of its own.
fn asks(rt: &impl Abort, engine: &mut Comb<RegMap, Image>, number: u64) {
    let op = put(number);
    let mut asks = ArrayVec::<Ask, 16>::new();
    asks.push(Ask {
        client: 1,
        number,
        op,
    });
    assert!(rt; round(rt, engine, &asks).is_ok());
    keeps_eight(rt, engine, number);
}

#[test]
fn the_last_eight_of_ten_requests_are_kept(rt: HostRuntime) {
    let alloc = rt.alloc();
    let mut engine: Comb<RegMap, Image> = made(&rt, alloc, 256, &MAP);
    keeps_eight(&rt, &engine, 0);
    for number in 1..11 {
        asks(&rt, &mut engine, number);
    }
    match adopt(&rt, alloc, engine.close()) {
        Ok(engine) => keeps_eight(&rt, &engine, 10),
        Err(_) => panic!(&rt; "the region is opened"),
    }
}
