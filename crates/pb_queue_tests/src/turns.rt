//! Rounds of both sides by turns: a client's kept requests are in the order of their numbers, whichever side they are of.
use crate::engine::{made, reopened, stands_at};
use crate::shared::{Row, kept_at, serve_all};
use pb_image::Image;
use pb_object::Reply;
use pb_queue::TwinQueue;
use std::process::Abort;

// A round, and where the queue's head and tail are then.
#[derive(Clone, Copy)]
struct Turn {
    rows: &'static [Row],
    head: u64,
    tail: u64,
}

const TURNS: [Turn; 8] = [
    Turn {
        rows: &[
            (0, Some(10), [11, 0, 0]),
            (1, Some(11), [11, 1, 0]),
            (2, Some(12), [11, 2, 0]),
        ],
        head: 0,
        tail: 3,
    },
    Turn {
        rows: &[(0, None, [8, 10, 0]), (1, None, [8, 11, 1])],
        head: 2,
        tail: 3,
    },
    Turn {
        rows: &[
            (1, Some(21), [11, 3, 0]),
            (2, Some(22), [11, 4, 0]),
            (3, Some(23), [11, 5, 0]),
        ],
        head: 2,
        tail: 6,
    },
    Turn {
        rows: &[(0, Some(1), [7, 0, 0]), (3, Some(2), [7, 0, 0])],
        head: 2,
        tail: 6,
    },
    Turn {
        rows: &[
            (0, None, [8, 12, 2]),
            (2, None, [8, 21, 3]),
            (3, None, [8, 22, 4]),
        ],
        head: 5,
        tail: 6,
    },
    Turn {
        rows: &[
            (0, Some(30), [11, 6, 0]),
            (1, Some(31), [11, 7, 0]),
            (2, Some(32), [11, 8, 0]),
            (3, Some(33), [7, 0, 0]),
        ],
        head: 5,
        tail: 9,
    },
    Turn {
        rows: &[
            (0, None, [8, 23, 5]),
            (1, None, [8, 30, 6]),
            (2, None, [8, 31, 7]),
            (3, None, [8, 32, 8]),
        ],
        head: 9,
        tail: 9,
    },
    Turn {
        rows: &[(1, None, [9, 0, 0])],
        head: 9,
        tail: 9,
    },
];

// The replies of each client's requests, the newest first.
const REPLIES: [&[[u64; 3]]; 4] = [
    &[
        [8, 23, 5],
        [11, 6, 0],
        [8, 12, 2],
        [7, 0, 0],
        [8, 10, 0],
        [11, 0, 0],
    ],
    &[
        [9, 0, 0],
        [8, 30, 6],
        [11, 7, 0],
        [11, 3, 0],
        [8, 11, 1],
        [11, 1, 0],
    ],
    &[[8, 31, 7], [11, 8, 0], [8, 21, 3], [11, 4, 0], [11, 2, 0]],
    &[[8, 32, 8], [7, 0, 0], [8, 22, 4], [7, 0, 0], [11, 5, 0]],
];

// A client's kept requests have these replies, and numbers that fall to 1.
fn keeps(rt: &impl Abort, queue: &TwinQueue<Image>, client: u32, replies: &[[u64; 3]]) {
    assert!(rt; replies.len() < 8);
    let mut number = replies.len() as u64;
    let mut place = 0;
    for &[code, value, extra] in replies {
        let kept = kept_at(rt, queue, client, place);
        assert!(rt; kept.number == number, "{client} {place}");
        assert!(rt;
            kept.reply == Reply { code, value, extra },
            "{client} {place}"
        );
        number = number.saturating_sub(1);
        place = place.saturating_add(1);
    }
    assert!(rt; kept_at(rt, queue, client, place).number == 0);
}

fn keep_all(rt: &impl Abort, queue: &TwinQueue<Image>) {
    let mut client = 0;
    for replies in &REPLIES {
        keeps(rt, queue, client, replies);
        client = client.saturating_add(1);
    }
}

#[test]
fn puts_and_takes_by_turns(rt: HostRuntime) {
    let mut queue = made(&rt, rt.alloc(), 1024, 4, 4);
    for turn in &TURNS {
        serve_all(&rt, &mut queue, turn.rows);
        assert!(rt; stands_at(&queue, turn.head, turn.tail));
    }
    keep_all(&rt, &queue);
    let again = reopened(&rt, rt.alloc(), queue.close());
    assert!(rt; stands_at(&again, 9, 9));
    assert_eq!(rt; (again.round_of(0), again.round_of(1)), (4, 4));
    keep_all(&rt, &again);
}
