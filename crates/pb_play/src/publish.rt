//! Filling the next reply row, publishing, and giving up.
ghost use Rattle.std.specs.Prelude.{◌≡◌, ◌≢◌, ◌+◌, ◌*◌, ◌%◌, ◌-◌, ◌<◌};
ghost use Rattle.pb_round_play.specs.Counts.{counted};
ghost use Rattle.pb_play.specs.Seats.{seat_of, stores_row, fills, row_with, with_round_published, goes_to, is_answered, notes, gives_up};
ghost use Rattle.pb_play.specs.Steps.{MakesWordStep};

use crate::memory::Memory;
use crate::wait::{answer, go_to};
use crate::work::{Knowledge, Owner, Work};
use pb_events::Stepped;
use pb_object::Reply;
use pb_round_play::{Row, Seat, Stage};

/// The holder stores a word of the next reply row, or publishes it once all are stored.
pub fn fill(memory: &mut Memory, client: u32, side: u32, count: u32) -> Stepped
    requires small { client < 16 }
    requires holds { memory.old.owner ≡ Owner.Held client side }
    requires at { memory.old.work ≡ Work.Filling count }
    ensures { MakesWordStep memory.old client memory.new result }
{
    let _ = side;
    let head = memory.head;
    if count / 4 < head.clients {
        store_row_word(memory, count / 4, count % 4)
    } else {
        publish(memory, client)
    }
}

fn store_row_word(memory: &mut Memory, client: u32, word: u32) -> Stepped
    requires client { client < 16 }
    requires word { word < 4 }
    ensures after { memory.new ≡ stores_row client word memory.old }
    ensures says { result ≡ Stepped.Went }
{
    let seat = memory.seats[client as usize];
    memory.seats[client as usize] = filled(seat, memory.turn, word);
    memory.work = Work::Filling {
        count: 4 * client + word + 1,
    };
    Stepped::Went
}

// A seat with another word in the row that isn't published.
fn filled(seat: Seat, turn: u64, word: u32) -> Seat
    requires { word < 4 }
    ensures { result ≡ fills turn word seat }
{
    match turn / 2 % 2 {
        0 => Seat {
            odd: with_word(seat.odd, word, &seat.ahead),
            ..seat
        },
        _ => Seat {
            even: with_word(seat.even, word, &seat.ahead),
            ..seat
        },
    }
}

// A row with a word taken from another.
fn with_word(row: Row, word: u32, from: &Row) -> Row
    requires { word < 4 }
    ensures { result ≡ row_with word from.now row }
{
    match word {
        0 => Row {
            number: from.number,
            ..row
        },
        1 => Row {
            reply: Reply {
                code: from.reply.code,
                ..row.reply
            },
            ..row
        },
        2 => Row {
            reply: Reply {
                value: from.reply.value,
                ..row.reply
            },
            ..row
        },
        _ => Row {
            reply: Reply {
                extra: from.reply.extra,
                ..row.reply
            },
            ..row
        },
    }
}

// The round is published, and the turn is free. The holder is answered where the round has its request, and else it tries again.
fn publish(memory: &mut Memory, client: u32) -> Stepped
    requires { client < 16 }
    ensures own { (seat_of memory.old client).ahead.number ≡ (seat_of memory.old client).ask.number
        → (memory.new ≡ is_answered client (with_round_published memory.old))
        × (result ≡ Stepped.Done (seat_of memory.old client).ask (seat_of memory.old client).ahead.reply) }
    ensures others { (seat_of memory.old client).ahead.number ≢ (seat_of memory.old client).ask.number
        → (memory.new ≡ goes_to client Stage.Looking (with_round_published memory.old))
        × (result ≡ Stepped.Busy (seat_of memory.old client).ask (memory.old.turn - 1) (counted memory.old.turn)) }
{
    let held = memory.turn;
    let seat = memory.seats[client as usize];
    let ask = seat.ask;
    free(memory);
    if seat.ahead.number == ask.number {
        answer(memory, client);
        return Stepped::Done {
            ask,
            reply: seat.ahead.reply,
        };
    }
    go_to(memory, client, Stage::Looking);
    Stepped::Busy {
        ask,
        from: held.saturating_sub(1),
        to: held.saturating_add(1),
    }
}

fn free(memory: &mut Memory)
    ensures { memory.new ≡ with_round_published memory.old }
{
    if let Some(side) = memory.ahead {
        memory.rounds = memory.rounds.with(side);
    }
    memory.ahead = None;
    memory.turn = memory.turn.saturating_add(1);
    memory.owner = Owner::Free;
    memory.work = Work::NoWork;
    memory.knowledge = Knowledge::Resting;
}

/// The count of faults is stored.
pub fn note(memory: &mut Memory, client: u32, side: u32, from: u64, to: u64) -> Stepped
    requires holds { memory.old.owner ≡ Owner.Held client side }
    requires at { memory.old.work ≡ Work.Noting from to }
    ensures { MakesWordStep memory.old client memory.new result }
{
    let _ = client;
    let _ = side;
    note_count(memory, from, to)
}

fn note_count(memory: &mut Memory, from: u64, to: u64) -> Stepped
    ensures after { memory.new ≡ notes from to memory.old }
    ensures says { result ≡ Stepped.Went }
{
    memory.noted = to;
    memory.work = Work::GivingUp { from, to };
    Stepped::Went
}

/// The turn is given up.
pub fn give_up(memory: &mut Memory, client: u32, side: u32, from: u64, to: u64) -> Stepped
    requires small { client < 16 }
    requires holds { memory.old.owner ≡ Owner.Held client side }
    requires at { memory.old.work ≡ Work.GivingUp from to }
    ensures { MakesWordStep memory.old client memory.new result }
{
    let _ = side;
    let ask = memory.seats[client as usize].ask;
    leave(memory, client);
    Stepped::Fault { ask, from, to }
}

fn leave(memory: &mut Memory, client: u32)
    requires { client < 16 }
    ensures { memory.new ≡ gives_up client memory.old }
{
    memory.turn = memory.turn.saturating_sub(1);
    memory.owner = Owner::Free;
    memory.work = Work::NoWork;
    go_to(memory, client, Stage::Looking);
}
