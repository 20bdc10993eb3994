//! Taking the turn, and what a holder asks of the engine that it got with it.
ghost use Rattle.std.specs.Prelude.{◌≡◌, ◌<◌, ◌+◌, ◌^◌};
ghost use Rattle.pb_core.specs.Client.{Taking};
ghost use Rattle.pb_rule.specs.Plays.{IsPlain, HasTakenOrMissed, the_view};
ghost use Rattle.pb_rule.specs.Seats.{IsAt};

use crate::board::{Board, Place};
use crate::places::TURN;
use crate::plays::{OfKind, TakesTurn};
use pb_engine::Engine;
use std::marker::Brand;

/// Takes the turn, where it is free and as it was found first. The answer is the turn word that is met: where it is another one, the turn
/// isn't taken.
pub fn take_turn<E: Engine>(board: &Board<E>, seat: &mut Place<E>, turn: u64, found: u64) -> u64
    requires at { IsAt board.now.table_id seat.old.table_id (the_view seat.old.me).clients }
    requires plain { IsPlain seat.old.me }
    requires stage { (the_view seat.old.me).body.stage ≡ Taking turn found }
    requires room { turn + 1 < 2 ^ 64 }
    ensures table { seat.new.table_id ≡ seat.old.table_id }
    ensures taken { HasTakenOrMissed E.seen (E.seen board.now.key.value).standing.kind result
        seat.old.me seat.new.me }
{
    take_turn_of::<Brand, E>(board, seat, turn, found)
}

// The same, where the type says of which kind the object is.
fn take_turn_of<K: OfKind, E: Engine>(
    board: &Board<E>,
    seat: &mut Place<E>,
    turn: u64,
    found: u64,
) -> u64
    requires kind { (E.seen board.now.key.value).standing.kind ≡ K.kind }
    requires at { IsAt board.now.table_id seat.old.table_id (the_view seat.old.me).clients }
    requires plain { IsPlain seat.old.me }
    requires stage { (the_view seat.old.me).body.stage ≡ Taking turn found }
    requires room { turn + 1 < 2 ^ 64 }
    ensures table { seat.new.table_id ≡ seat.old.table_id }
    ensures taken { HasTakenOrMissed E.seen K.kind result seat.old.me seat.new.me }
{
    board.compare_exchange::<TakesTurn<K>>(seat, TURN as usize, turn, turn + 1)
}
