//! Rounds of several clients.
use arrayvec::ArrayVec;
use pb_engine::Engine;
use pb_engine_fixtures::may_be_served;
use pb_image::Image;
use pb_object::{Action, Ask, Kept, Op, Reply};
use pb_queue::TwinQueue;
use std::process::Abort;

/// What a client asks for, and the reply's code, value and extra word: it puts an item, or takes the next one.
pub type Row = (u32, Option<u64>, [u64; 3]);

fn op(item: Option<u64>) -> Op {
    let (action, a) = match item {
        Some(item) => (Action::QueuePut, item),
        None => (Action::QueueTake, 0),
    };
    Op {
        code: action.code(),
        a,
        b: 0,
        c: 0,
    }
}

/// One of a client's kept requests.
pub fn kept_at(rt: &impl Abort, queue: &TwinQueue<Image>, client: u32, place: u32) -> Kept {
    assert!(rt; client < queue.clients() && place < 8);
    queue.kept_at(client, place)
}

// The next requests of the rows' clients.
fn asks_of(rt: &impl Abort, queue: &TwinQueue<Image>, rows: &[Row]) -> ArrayVec<Ask, 16> {
    let mut asks = ArrayVec::new();
    for &(client, item, _) in rows {
        let number = kept_at(rt, queue, client, 0).number.saturating_add(1);
        let op = op(item);
        assert!(rt; asks.len() < 16);
        asks.push(Ask { client, number, op });
    }
    asks
}

// The newest kept request of the row's client has the row's reply.
fn is_answered(rt: &impl Abort, queue: &TwinQueue<Image>, row: &Row) -> bool {
    let (client, item, [code, value, extra]) = *row;
    let kept = kept_at(rt, queue, client, 0);
    kept.op == op(item) && kept.reply == Reply { code, value, extra }
}

/// The rows' requests are served in one round.
pub fn serve_all(rt: &impl Abort, queue: &mut TwinQueue<Image>, rows: &[Row]) {
    let asks = asks_of(rt, queue, rows);
    assert!(rt; queue.sure());
    assert!(rt; may_be_served(queue, asks.as_slice()));
    assert!(rt; queue.round(&asks).is_ok());
    for row in rows {
        assert!(rt; is_answered(rt, queue, row));
    }
}
