//! A try of a client whose request is announced.
ghost use Rattle.std.specs.Prelude.{◌≡◌, ◌≢◌, ◌<◌, ◌≤◌, ◌%◌, ◌∷◌, []};
ghost use Rattle.pb_core.specs.Client.{Looking, Taking};
ghost use Rattle.pb_core.specs.Memory.{round_of_turn};
ghost use Rattle.pb_rule.specs.Plays.{IsPlain, the_view};
ghost use Rattle.pb_rule.specs.Seats.{IsAt};
ghost use Rattle.pb_rule.specs.View.{Turn, Row};
ghost use Rattle.pb_shared.specs.Tries.{HasTried, IsSamePass};

use crate::answers::Attempt;
use crate::holder::hold;
use crate::reading::read_reply;
use pb_engine::Engine;
use pb_object::Ask;
use pb_rule::taking::take_turn;
use pb_rule::waiting::{load_number, look_first, look_last};
use pb_rule::{Board, Place, held, round_of};

/// Takes the reply from the published row, or takes the turn and serves all that is announced.
pub fn make_try<E: Engine>(
    board: &Board<E>,
    seat: &mut Place<E>,
    ask: &Ask,
    clients: u32,
) -> Attempt
    requires at { IsAt board.now.table_id seat.old.table_id clients }
    requires clients { (clients ≡ (the_view seat.old.me).clients) × (clients ≤ 16) }
    requires ask { ask.now ≡ (the_view seat.old.me).body.ask }
    requires client { (ask.now.client ≡ (the_view seat.old.me).client) × (ask.now.client < clients) }
    requires plain { IsPlain seat.old.me }
    requires looking { (the_view seat.old.me).body.stage ≡ Looking }
    ensures table { seat.new.table_id ≡ seat.old.table_id }
    ensures plain { IsPlain seat.new.me }
    ensures tried { HasTried (the_view seat.old.me) (the_view seat.new.me) result }
    ensures same { IsSamePass (the_view seat.old.me) (the_view seat.new.me) }
{
    let turn = look_first(board, seat);
    let row = row_of(turn);
    let found = load_number(board, seat, ask.client, row);
    if found == ask.number {
        return read_reply(board, seat, ask.client, row, turn);
    }
    if held(turn) {
        let to = look_last(board, seat, found);
        return Attempt::Busy { from: turn, to };
    }
    take_and_hold(board, seat, ask, clients, turn, found)
}

// Takes the turn, where it is as it was found.
fn take_and_hold<E: Engine>(
    board: &Board<E>,
    seat: &mut Place<E>,
    ask: &Ask,
    clients: u32,
    turn: u64,
    found: u64,
) -> Attempt
    requires at { IsAt board.now.table_id seat.old.table_id clients }
    requires clients { (clients ≡ (the_view seat.old.me).clients) × (clients ≤ 16) }
    requires ask { ask.now ≡ (the_view seat.old.me).body.ask }
    requires client { (ask.now.client ≡ (the_view seat.old.me).client) × (ask.now.client < clients) }
    requires plain { IsPlain seat.old.me }
    requires stage { (the_view seat.old.me).body.stage ≡ Taking turn found }
    requires notes { (the_view seat.old.me).notes ≡ Turn turn ∷ Row found ∷ [] }
    requires found { found ≢ ask.now.number }
    requires free { turn % 2 ≡ 0 }
    requires front { (the_view seat.old.me).body.front ≡ round_of_turn turn }
    ensures table { seat.new.table_id ≡ seat.old.table_id }
    ensures plain { IsPlain seat.new.me }
    ensures tried { HasTried (the_view seat.old.me) (the_view seat.new.me) result }
    ensures same { IsSamePass (the_view seat.old.me) (the_view seat.new.me) }
{
    let met = take_turn(board, seat, turn, found);
    if met != turn {
        return Attempt::Busy {
            from: turn,
            to: met,
        };
    }
    hold(board, seat, ask, clients, turn)
}

// The published row.
fn row_of(turn: u64) -> u32
    ensures { result ≡ round_of_turn turn % 2 }
{
    if round_of(turn) % 2 == 0 { 0 } else { 1 }
}
