//! The line of one slot of a client: a recorded request, with the reply.
ghost use Rattle.std.specs.Prelude.{◌≡◌, ◌↔◌, IsTrue};
ghost use Rattle.std.specs.Option.{SomeIff};
ghost use Rattle.pb_object.specs.History.{IsOfSide};
ghost use Rattle.pb_object.specs.Request.{LeavesReplyZero};
ghost use Rattle.pb_layout.specs.ClientLine.{client_line_of, kept_in, IsReplyTo, IsRecorded, IsKept};

use pb_object::{Action, Answer, Kept, Kind, LAST_NUMBER, Op, Reply, is_operation};
use pb_pmem::Line;

/// The line of a slot that holds this request: number, operation and reply. Number 0 means that the slot is empty.
pub fn client_line(kept: &Kept) -> Line
    ensures { result ≡ client_line_of kept.now }
{
    let op = &kept.op;
    let reply = &kept.reply;
    Line {
        words: [
            kept.number,
            op.code,
            op.a,
            op.b,
            op.c,
            reply.code,
            reply.value,
            reply.extra,
        ],
    }
}

/// The request that a client's line spells, in a record of this side of an object of this kind.
///
/// None comes exactly where the format refuses the line: it is neither all zero nor a request with a number, an operation of the kind
/// and the side, and a reply that the operation may have.
pub fn client_of(kind: Kind, side: u32, line: &Line) -> Option<Kept>
    ensures { SomeIff result (IsKept kind side (kept_in line.now)) (kept_in line.now) }
{
    let kept = kept_of_line(line);
    if is_kept(kind, side, &kept) {
        Some(kept)
    } else {
        None
    }
}

/// The request that a client's line spells, whether or not the format allows it.
pub fn kept_of_line(line: &Line) -> Kept
    ensures { result ≡ kept_in line.now }
{
    let words = &line.words;
    Kept {
        number: words[0],
        op: Op {
            code: words[1],
            a: words[2],
            b: words[3],
            c: words[4],
        },
        reply: Reply {
            code: words[5],
            value: words[6],
            extra: words[7],
        },
    }
}

fn is_kept(kind: Kind, side: u32, kept: &Kept) -> bool
    ensures { IsTrue result ↔ IsKept kind side kept.now }
{
    *kept == Kept::default() || is_recorded(kind, side, kept)
}

fn is_recorded(kind: Kind, side: u32, kept: &Kept) -> bool
    ensures { IsTrue result ↔ IsRecorded kind side kept.now }
{
    kept.number >= 1
        && kept.number <= LAST_NUMBER
        && is_operation(kind, &kept.op)
        && is_of_side(side, &kept.op)
        && is_reply_to(&kept.op, &kept.reply)
}

fn is_of_side(side: u32, op: &Op) -> bool
    ensures { IsTrue result ↔ IsOfSide side op.now }
{
    match Action::from_code(op.code) {
        Some(action) => action.side() == side,
        None => false,
    }
}

fn is_reply_to(op: &Op, reply: &Reply) -> bool
    ensures { IsTrue result ↔ IsReplyTo op.now reply.now }
{
    let Some(action) = Action::from_code(op.code) else {
        return false;
    };
    match Answer::from_code(reply.code) {
        Some(answer) => {
            action.may_answer(answer) && leaves_reply_zero(action.value_count(answer), reply)
        }
        None => false,
    }
}

fn leaves_reply_zero(used: usize, reply: &Reply) -> bool
    ensures { IsTrue result ↔ LeavesReplyZero used reply.now }
{
    (used > 0 || reply.value == 0) && (used > 1 || reply.extra == 0)
}
