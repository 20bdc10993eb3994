//! The steps of a client that waits for its reply: it loads the turn word and the words of its own row.
ghost use Rattle.std.specs.Prelude.{◌≡◌, ◌<◌, ◌%◌};
ghost use Rattle.pb_core.specs.Client.{Looking, LoadsNumber, Confirming, Lacking};
ghost use Rattle.pb_core.specs.Memory.{round_of_turn};
ghost use Rattle.pb_rule.specs.Plays.{IsPlain, IsNoEarlier, the_view, with_view, first_look, last_look, confirms, row_number, row_word_found, first_turn, reply_found};
ghost use Rattle.pb_rule.specs.Seats.{IsAt, IsRowPlace};

use crate::board::{Board, Place};
use crate::places::{TURN, row_word};
use crate::plays::{Confirms, FindsNumber, FindsWord, LooksFirst, LooksLast};
use pb_engine::Engine;

/// The turn word that a try begins with.
pub fn look_first<E: Engine>(board: &Board<E>, seat: &mut Place<E>) -> u64
    requires at { IsAt board.now.table_id seat.old.table_id (the_view seat.old.me).clients }
    requires plain { IsPlain seat.old.me }
    requires looking { (the_view seat.old.me).body.stage ≡ Looking }
    ensures table { seat.new.table_id ≡ seat.old.table_id }
    ensures seen { seat.new.me ≡ with_view (first_look result) seat.old.me }
    ensures later { IsNoEarlier result seat.old.me }
{
    board.load::<LooksFirst>(seat, TURN as usize)
}

/// The number word of the published row: of the round that the turn word told.
pub fn load_number<E: Engine>(board: &Board<E>, seat: &mut Place<E>, client: u32, row: u32) -> u64
    requires at { IsAt board.now.table_id seat.old.table_id (the_view seat.old.me).clients }
    requires plain { IsPlain seat.old.me }
    requires client { (client ≡ (the_view seat.old.me).client) × (client < 16) × (client < (the_view seat.old.me).clients) }
    requires row { row ≡ round_of_turn (first_turn (the_view seat.old.me).body.stage) % 2 }
    requires stage { (the_view seat.old.me).body.stage ≡ LoadsNumber (first_turn (the_view seat.old.me).body.stage) }
    ensures table { seat.new.table_id ≡ seat.old.table_id }
    ensures seen { seat.new.me ≡ with_view (row_number result) seat.old.me }
{
    let word = row_word(client, row, 0);
    board.load::<FindsNumber>(seat, word as usize)
}

/// A word of the reply behind it.
pub fn load_reply_word<E: Engine>(
    board: &Board<E>,
    seat: &mut Place<E>,
    client: u32,
    row: u32,
    place: u32,
) -> u64
    requires at { IsAt board.now.table_id seat.old.table_id (the_view seat.old.me).clients }
    requires plain { IsPlain seat.old.me }
    requires client { (client ≡ (the_view seat.old.me).client) × (client < 16) × (client < (the_view seat.old.me).clients) }
    requires row { row ≡ round_of_turn (first_turn (the_view seat.old.me).body.stage) % 2 }
    requires place { IsRowPlace (the_view seat.old.me).body.stage place }
    ensures table { seat.new.table_id ≡ seat.old.table_id }
    ensures seen { seat.new.me ≡ with_view (row_word_found result) seat.old.me }
{
    let word = row_word(client, row, place);
    board.load::<FindsWord>(seat, word as usize)
}

/// The turn word behind the reply: the reply counts where it is of the same round.
pub fn confirm<E: Engine>(board: &Board<E>, seat: &mut Place<E>) -> u64
    requires at { IsAt board.now.table_id seat.old.table_id (the_view seat.old.me).clients }
    requires plain { IsPlain seat.old.me }
    requires stage { (the_view seat.old.me).body.stage ≡ Confirming (first_turn (the_view seat.old.me).body.stage) (reply_found (the_view seat.old.me).body.stage) }
    ensures table { seat.new.table_id ≡ seat.old.table_id }
    ensures seen { seat.new.me ≡ with_view (confirms result) seat.old.me }
    ensures later { IsNoEarlier result seat.old.me }
{
    board.load::<Confirms>(seat, TURN as usize)
}

/// The turn word that a try ends with, where its row lacked its number while the turn was held.
pub fn look_last<E: Engine>(board: &Board<E>, seat: &mut Place<E>, found: u64) -> u64
    requires at { IsAt board.now.table_id seat.old.table_id (the_view seat.old.me).clients }
    requires plain { IsPlain seat.old.me }
    requires stage { (the_view seat.old.me).body.stage ≡ Lacking (first_turn (the_view seat.old.me).body.stage) found }
    ensures table { seat.new.table_id ≡ seat.old.table_id }
    ensures seen { seat.new.me ≡ with_view (last_look result) seat.old.me }
    ensures later { IsNoEarlier result seat.old.me }
{
    board.load::<LooksLast>(seat, TURN as usize)
}
