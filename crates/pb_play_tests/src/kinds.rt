//! Each kind of object, served one request after the other.
ghost use Rattle.std.specs.Prelude.{◌≤◌};

use crate::played::Played;
use pb_events::Stepped;
use pb_object::{Ask, Kind, Op, Reply};
use std::alloc::Global;
use std::process::Abort;

/// An operation with the reply that it is to have, each as its words.
type Served = ([u64; 4], [u64; 3]);

const MAP: [Served; 4] = [
    ([2, 3, 77, 0], [2, 0, 1]),
    ([1, 3, 0, 0], [1, 77, 1]),
    ([3, 3, 1, 78], [2, 77, 2]),
    ([1, 4, 0, 0], [4, 0, 0]),
];

const STACK: [Served; 4] = [
    ([4, 5, 0, 0], [6, 1, 0]),
    ([4, 6, 0, 0], [7, 0, 0]),
    ([5, 0, 0, 0], [8, 5, 0]),
    ([6, 0, 0, 0], [9, 0, 0]),
];

const HEAP: [Served; 5] = [
    ([7, 9, 0, 0], [10, 1, 0]),
    ([7, 3, 0, 0], [10, 2, 0]),
    ([9, 0, 0, 0], [8, 3, 0]),
    ([8, 0, 0, 0], [8, 3, 0]),
    ([8, 0, 0, 0], [8, 9, 0]),
];

const QUEUE: [Served; 6] = [
    ([10, 1, 0, 0], [11, 0, 0]),
    ([10, 2, 0, 0], [11, 1, 0]),
    ([10, 3, 0, 0], [7, 0, 0]),
    ([11, 0, 0, 0], [8, 1, 0]),
    ([10, 4, 0, 0], [11, 2, 0]),
    ([11, 0, 0, 0], [8, 2, 1]),
];

// A client makes these requests one after the other, and each is answered as it is to be.
fn serve(rt: &impl Abort, alloc: Global, kind: Kind, size: u32, rows: &[Served])
    requires some_size { 1 ≤ size }
    requires small_size { size ≤ 1024 }
{
    let mut played = Played::fresh(rt, alloc, kind, 1, size);
    let mut number = 0u64;
    for row in rows {
        number = number.saturating_add(1);
        let ([code, a, b, c], [answer, value, extra]) = *row;
        let ask = Ask {
            client: 0,
            number,
            op: Op { code, a, b, c },
        };
        let reply = Reply {
            code: answer,
            value,
            extra,
        };
        let served = played.serve(rt, &ask);
        assert!(rt; served == Stepped::Done { ask, reply }, "request {number}");
    }
}

#[test]
fn each_kind(rt: HostRuntime) {
    serve(&rt, rt.alloc(), Kind::Map, 4, &MAP);
    serve(&rt, rt.alloc(), Kind::Stack, 1, &STACK);
    serve(&rt, rt.alloc(), Kind::Heap, 4, &HEAP);
    serve(&rt, rt.alloc(), Kind::Queue, 2, &QUEUE);
}
