//! Reading the own reply from the published row.
ghost use Rattle.std.specs.Prelude.{◌≡◌, ◌<◌, ◌%◌, ◌/◌};
ghost use Rattle.pb_core.specs.Client.{LoadsCode};
ghost use Rattle.pb_core.specs.Memory.{round_of_turn};
ghost use Rattle.pb_rule.specs.Plays.{IsPlain, the_view, with_view};
ghost use Rattle.pb_rule.specs.Seats.{IsAt};
ghost use Rattle.pb_shared.specs.Reads.{with_reply, HasReadReply};
ghost use Rattle.pb_shared.specs.Tries.{IsSamePass};

use crate::answers::Attempt;
use pb_engine::Engine;
use pb_object::Reply;
use pb_rule::waiting::{confirm, load_reply_word};
use pb_rule::{Board, Place, round_of};

/// The reply behind the own number: it counts where the turn is of the same round still.
pub fn read_reply<E: Engine>(
    board: &Board<E>,
    seat: &mut Place<E>,
    client: u32,
    row: u32,
    turn: u64,
) -> Attempt
    requires at { IsAt board.now.table_id seat.old.table_id (the_view seat.old.me).clients }
    requires plain { IsPlain seat.old.me }
    requires client { (client ≡ (the_view seat.old.me).client) × (client < 16) × (client < (the_view seat.old.me).clients) }
    requires row { row ≡ round_of_turn turn % 2 }
    requires stage { (the_view seat.old.me).body.stage ≡ LoadsCode turn }
    ensures table { seat.new.table_id ≡ seat.old.table_id }
    ensures plain { IsPlain seat.new.me }
    ensures read { HasReadReply turn (the_view seat.old.me) (the_view seat.new.me) result }
    ensures same { IsSamePass (the_view seat.old.me) (the_view seat.new.me) }
{
    let reply = load_reply(board, seat, client, row, turn);
    let to = confirm(board, seat);
    if round_of(to) == round_of(turn) {
        return Attempt::Done(reply);
    }
    Attempt::Busy { from: turn, to }
}

// The words of the reply.
fn load_reply<E: Engine>(
    board: &Board<E>,
    seat: &mut Place<E>,
    client: u32,
    row: u32,
    turn: u64,
) -> Reply
    requires at { IsAt board.now.table_id seat.old.table_id (the_view seat.old.me).clients }
    requires plain { IsPlain seat.old.me }
    requires client { (client ≡ (the_view seat.old.me).client) × (client < 16) × (client < (the_view seat.old.me).clients) }
    requires row { row ≡ round_of_turn turn % 2 }
    requires stage { (the_view seat.old.me).body.stage ≡ LoadsCode turn }
    ensures table { seat.new.table_id ≡ seat.old.table_id }
    ensures read { seat.new.me ≡ with_view (with_reply turn result) seat.old.me }
{
    let _ = turn;
    let code = load_reply_word(board, seat, client, row, 1);
    let value = load_reply_word(board, seat, client, row, 2);
    let extra = load_reply_word(board, seat, client, row, 3);
    Reply { code, value, extra }
}
