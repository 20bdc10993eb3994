//! What the holder of the turn does: it settles, scans, has a round made, and publishes it; or it gives up after a fault.
ghost use Rattle.std.specs.Prelude.{◌≡◌, ◌<◌, ◌≤◌, ◌+◌, ◌*◌, ◌%◌, ◌^◌, ◌∷◌, [], true, suc, None};
ghost use Rattle.pb_core.specs.Memory.{round_of_turn};
ghost use Rattle.pb_rule.specs.Plays.{IsPlain, the_view, engine_now};
ghost use Rattle.pb_rule.specs.Seats.{IsAt};
ghost use Rattle.pb_shared.specs.declared.answers.Attempt.TheVariants.{Fault};
ghost use Rattle.pb_shared.specs.Filling.{IsFilling};
ghost use Rattle.pb_shared.specs.Holding.{IsHolding, HasFailed, after_fault};
ghost use Rattle.pb_shared.specs.Scanning.{IsScanning};
ghost use Rattle.pb_shared.specs.Tries.{HasHeld, IsSamePass};

use crate::answers::Attempt;
use crate::fill::finish;
use crate::scan::{scan, side_of};
use pb_engine::Engine;
use pb_object::Ask;
use pb_pmem::DeviceFault;
use pb_rule::engines::{is_sure, make_round, settle};
use pb_rule::holding::{give_up, note_faults};
use pb_rule::{Board, Place, round_of};
use std::thread::yield_now;

/// The rest of a try that took the turn, which was free at this turn word.
pub fn hold<E: Engine>(
    board: &Board<E>,
    seat: &mut Place<E>,
    ask: &Ask,
    clients: u32,
    turn: u64,
) -> Attempt
    requires at { IsAt board.now.table_id seat.old.table_id clients }
    requires clients { (clients ≡ (the_view seat.old.me).clients) × (clients ≤ 16) }
    requires ask { ask.now ≡ (the_view seat.old.me).body.ask }
    requires client { (ask.now.client ≡ (the_view seat.old.me).client) × (ask.now.client < clients) }
    requires holding { IsHolding E.seen (E.seen board.now.key.value).standing.kind turn seat.old.me }
    requires room { turn + 2 < 2 ^ 64 }
    ensures table { seat.new.table_id ≡ seat.old.table_id }
    ensures plain { IsPlain seat.new.me }
    ensures held { HasHeld (the_view seat.old.me) (the_view seat.new.me) result }
    ensures same { IsSamePass (the_view seat.old.me) (the_view seat.new.me) }
{
    if is_sure(board, seat) {
        return combine(board, seat, ask, clients, turn);
    }
    match settle(board, seat) {
        Ok(true) => publish_settled(board, seat, ask, clients, turn),
        Ok(false) => combine(board, seat, ask, clients, turn),
        Err(fault) => abandon(board, seat, turn, &fault),
    }
}

// Scans, has the round made and publishes it. The others have time to announce before.
fn combine<E: Engine>(
    board: &Board<E>,
    seat: &mut Place<E>,
    ask: &Ask,
    clients: u32,
    turn: u64,
) -> Attempt
    requires at { IsAt board.now.table_id seat.old.table_id clients }
    requires clients { (clients ≡ (the_view seat.old.me).clients) × (clients ≤ 16) }
    requires ask { ask.now ≡ (the_view seat.old.me).body.ask }
    requires client { (ask.now.client ≡ (the_view seat.old.me).client) × (ask.now.client < clients) }
    requires scan { IsScanning E.seen (E.seen board.now.key.value).standing.kind (the_view seat.old.me) (engine_now E.seen seat.old.me) 0 [] seat.old.me }
    requires sure { (engine_now E.seen seat.old.me).sure ≡ true }
    requires turn { turn ≡ 2 * (the_view seat.old.me).body.front }
    requires room { turn + 2 < 2 ^ 64 }
    ensures table { seat.new.table_id ≡ seat.old.table_id }
    ensures plain { IsPlain seat.new.me }
    ensures held { HasHeld (the_view seat.old.me) (the_view seat.new.me) result }
    ensures same { IsSamePass (the_view seat.old.me) (the_view seat.new.me) }
{
    if clients > 1 {
        yield_now();
        yield_now();
    }
    let asks = scan(board, seat, side_of(&ask.op), clients);
    match make_round(board, seat, &asks) {
        Ok(()) => {
            let kept = finish(board, seat, ask.client, clients, next_row(turn), turn + 2);
            Attempt::Done(kept.reply)
        }
        Err(fault) => abandon(board, seat, turn, &fault),
    }
}

// Publishes the round that settling found recorded.
fn publish_settled<E: Engine>(
    board: &Board<E>,
    seat: &mut Place<E>,
    ask: &Ask,
    clients: u32,
    turn: u64,
) -> Attempt
    requires at { IsAt board.now.table_id seat.old.table_id clients }
    requires clients { (clients ≡ (the_view seat.old.me).clients) × (clients ≤ 16) }
    requires ask { ask.now ≡ (the_view seat.old.me).body.ask }
    requires client { (ask.now.client ≡ (the_view seat.old.me).client) × (ask.now.client < clients) }
    requires filling { IsFilling E.seen (E.seen board.now.key.value).standing.kind (the_view seat.old.me) (engine_now E.seen seat.old.me) None 0 seat.old.me }
    requires turn { turn ≡ 2 * (the_view seat.old.me).body.front }
    requires room { turn + 2 < 2 ^ 64 }
    ensures table { seat.new.table_id ≡ seat.old.table_id }
    ensures plain { IsPlain seat.new.me }
    ensures held { HasHeld (the_view seat.old.me) (the_view seat.new.me) result }
    ensures same { IsSamePass (the_view seat.old.me) (the_view seat.new.me) }
{
    let kept = finish(board, seat, ask.client, clients, next_row(turn), turn + 2);
    if kept.number == ask.number {
        return Attempt::Done(kept.reply);
    }
    Attempt::Busy {
        from: turn,
        to: turn + 2,
    }
}

// The row of the next round.
fn next_row(turn: u64) -> u32
    ensures { result ≡ suc (round_of_turn turn) % 2 }
{
    if round_of(turn) % 2 == 0 { 1 } else { 0 }
}

// Stores the count of faults and gives up the turn.
fn abandon<E: Engine>(
    board: &Board<E>,
    seat: &mut Place<E>,
    turn: u64,
    fault: &DeviceFault,
) -> Attempt
    requires at { IsAt board.now.table_id seat.old.table_id (the_view seat.old.me).clients }
    requires failed { HasFailed E.seen (E.seen board.now.key.value).standing.kind fault.now seat.old.me }
    requires turn { turn ≡ 2 * (the_view seat.old.me).body.front }
    ensures table { seat.new.table_id ≡ seat.old.table_id }
    ensures given { seat.new.me ≡ (after_fault fault.now (the_view seat.old.me) ∷ [], []) }
    ensures answer { result ≡ Fault fault.now.from fault.now.to }
{
    note_faults(board, seat, fault.to);
    give_up(board, seat, turn);
    Attempt::Fault {
        from: fault.from,
        to: fault.to,
    }
}
