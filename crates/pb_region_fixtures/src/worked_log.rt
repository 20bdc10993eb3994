//! The worked log: a map of four registers for one client is formatted, and takes `put 3 77` and then `get 3`.
use pb_device_fixtures::{MAGIC, back, whole, word, zeros};
use pb_layout::Header;
use pb_object::{Kept, Kind, Op, Reply};
use pb_pmem::{Line, LogOp};

/// The worked region: a map of four registers for one client.
pub const HEAD: Header = Header {
    kind: Kind::Map,
    clients: 1,
    size: 4,
};

/// `put 3 77`, and the reply `was 0 1`.
pub const PUT: Kept = Kept {
    number: 1,
    op: Op {
        code: 2,
        a: 3,
        b: 77,
        c: 0,
    },
    reply: Reply {
        code: 2,
        value: 0,
        extra: 1,
    },
};

/// `get 3`, and the reply `is 77 1`.
pub const GET: Kept = Kept {
    number: 2,
    op: Op {
        code: 1,
        a: 3,
        b: 0,
        c: 0,
    },
    reply: Reply {
        code: 1,
        value: 77,
        extra: 1,
    },
};

/// What an empty slot holds.
pub const NONE: Kept = Kept {
    number: 0,
    op: Op {
        code: 0,
        a: 0,
        b: 0,
        c: 0,
    },
    reply: Reply {
        code: 0,
        value: 0,
        extra: 0,
    },
};

// The lines of the put, of the get, and of the register after them.
const PUT_LINE: [u64; 8] = [1, 2, 3, 77, 0, 2, 0, 1];

const GET_LINE: [u64; 8] = [2, 1, 3, 0, 0, 1, 77, 1];

const REGISTERS: [u64; 8] = [0, 0, 0, 0, 0, 0, 77, 1];

/// The record in use after the formatting, after the put, and after the get.
pub fn record(round: u64) -> [Line; 10] {
    let zero = Line::default();
    let first = Line {
        words: [round, 0, 0, 0, 0, 0, 0, 0],
    };
    let put = Line { words: PUT_LINE };
    let get = Line { words: GET_LINE };
    let last = Line { words: REGISTERS };
    match round {
        0 => [zero; 10],
        1 => [first, put, zero, zero, zero, zero, zero, zero, zero, last],
        _ => [first, get, put, zero, zero, zero, zero, zero, zero, last],
    }
}

/// The 49 operations, in their order.
pub fn worked() -> [LogOp; 49] {
    [
        zeros(9),
        zeros(10),
        zeros(11),
        zeros(12),
        zeros(13),
        zeros(14),
        zeros(15),
        zeros(16),
        zeros(17),
        zeros(18),
        zeros(1),
        zeros(2),
        word(0, 1, 2),
        word(0, 2, 1),
        word(0, 3, 1),
        word(0, 4, 4),
        word(0, 5, 3),
        word(0, 6, 3),
        word(0, 7, 0),
        back(0, 3),
        back(9, 10),
        LogOp::Fence,
        word(0, 0, MAGIC),
        back(0, 1),
        LogOp::Sync,
        whole(19, [1, 0, 0, 0, 0, 0, 0, 0]),
        whole(20, PUT_LINE),
        zeros(21),
        zeros(22),
        zeros(23),
        zeros(24),
        zeros(25),
        zeros(26),
        zeros(27),
        whole(28, REGISTERS),
        back(19, 10),
        LogOp::Fence,
        word(1, 0, 1),
        back(1, 1),
        LogOp::Sync,
        whole(9, [2, 0, 0, 0, 0, 0, 0, 0]),
        whole(10, GET_LINE),
        whole(11, PUT_LINE),
        whole(18, REGISTERS),
        back(9, 10),
        LogOp::Fence,
        word(1, 0, 2),
        back(1, 1),
        LogOp::Sync,
    ]
}

/// The operations of the get's store where nothing is known of the spare record: all its lines are written.
pub fn get_over_unknown() -> [LogOp; 15] {
    [
        whole(9, [2, 0, 0, 0, 0, 0, 0, 0]),
        whole(10, GET_LINE),
        whole(11, PUT_LINE),
        zeros(12),
        zeros(13),
        zeros(14),
        zeros(15),
        zeros(16),
        zeros(17),
        whole(18, REGISTERS),
        back(9, 10),
        LogOp::Fence,
        word(1, 0, 2),
        back(1, 1),
        LogOp::Sync,
    ]
}
