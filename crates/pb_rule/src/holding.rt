//! The steps of the holder of the turn: it scans requests, stores reply rows and publishes, or stores the count of faults and gives up.
ghost use Rattle.std.specs.Prelude.{◌≡◌, ◌<◌, ◌%◌, ◌+◌, ◌*◌, suc};
ghost use Rattle.pb_core.specs.Client.{row_word as word_of_row};
ghost use Rattle.pb_core.specs.Memory.{Filling};
ghost use Rattle.pb_object.specs.Standing.{newest_of};
ghost use Rattle.pb_rule.specs.Holding.{IsScanPlace, IsGivingUp, notes_now};
ghost use Rattle.pb_rule.specs.Plays.{ScanIsOver, the_view, lets_go, scan_step, fill_step, publish_step, note_step, given_up, scanning_now, filling_now, engine_now, engine_before};
ghost use Rattle.pb_rule.specs.Ready.{IsReadyFor, same_work};
ghost use Rattle.pb_rule.specs.Seats.{IsAt};

use crate::board::{Board, Place};
use crate::places::{FAULTS, TURN, request_word, row_word};
use crate::plays::{Fills, GivesUp, Notes, Publishes, Scans};
use pb_engine::Engine;

/// The word of a request that the scan is at.
pub fn load_request<E: Engine>(
    board: &Board<E>,
    seat: &mut Place<E>,
    client: u32,
    place: u32,
) -> u64
    requires at { IsAt board.now.table_id seat.old.table_id (the_view seat.old.me).clients }
    requires ready { IsReadyFor E.seen (E.seen board.now.key.value).standing.kind scanning_now seat.old.me }
    requires client { (client < 16) × (client < (the_view seat.old.me).clients) }
    requires place { IsScanPlace (scanning_now (the_view seat.old.me).work) client place }
    ensures table { seat.new.table_id ≡ seat.old.table_id }
    ensures seen { seat.new.me ≡ scan_step E.seen result seat.old.me }
    ensures over { ScanIsOver (engine_now E.seen seat.old.me) (the_view seat.new.me) }
{
    let word = request_word(client, place);
    board.load::<Scans>(seat, word as usize)
}

/// Stores the word of the next reply row that is due: of a client's kept reply.
pub fn store_row<E: Engine>(
    board: &Board<E>,
    seat: &mut Place<E>,
    client: u32,
    row: u32,
    place: u32,
    word: u64,
)
    requires at { IsAt board.now.table_id seat.old.table_id (the_view seat.old.me).clients }
    requires ready { IsReadyFor E.seen (E.seen board.now.key.value).standing.kind filling_now seat.old.me }
    requires client { (client < 16) × (client < (the_view seat.old.me).clients) }
    requires row { row ≡ suc (the_view seat.old.me).body.front % 2 }
    requires place { (place < 4) × (filling_now (the_view seat.old.me).work ≡ Filling (4 * client + place)) }
    requires word { word ≡ word_of_row (newest_of (engine_now E.seen seat.old.me).standing client) place }
    ensures table { seat.new.table_id ≡ seat.old.table_id }
    ensures seen { seat.new.me ≡ fill_step E.seen seat.old.me }
{
    let at = row_word(client, row, place);
    board.store::<Fills>(seat, at as usize, word);
}

/// Publishes the round: the turn is free, and the engine lies in its slot.
pub fn publish<E: Engine>(board: &Board<E>, seat: &mut Place<E>, turn: u64)
    requires at { IsAt board.now.table_id seat.old.table_id (the_view seat.old.me).clients }
    requires ready { IsReadyFor E.seen (E.seen board.now.key.value).standing.kind same_work seat.old.me }
    requires filled { (the_view seat.old.me).work ≡ Filling (4 * (the_view seat.old.me).clients) }
    requires same { engine_now E.seen seat.old.me ≡ engine_before seat.old.me }
    requires turn { turn ≡ 2 * suc (the_view seat.old.me).body.front }
    ensures table { seat.new.table_id ≡ seat.old.table_id }
    ensures seen { seat.new.me ≡ publish_step seat.old.me }
{
    board.store::<Publishes>(seat, TURN as usize, turn);
}

/// Stores the count of faults, after a call of the device failed.
pub fn note_faults<E: Engine>(board: &Board<E>, seat: &mut Place<E>, count: u64)
    requires at { IsAt board.now.table_id seat.old.table_id (the_view seat.old.me).clients }
    requires ready { IsReadyFor E.seen (E.seen board.now.key.value).standing.kind (notes_now (engine_before seat.old.me) (engine_now E.seen seat.old.me)) seat.old.me }
    requires count { count ≡ (engine_now E.seen seat.old.me).device.faults }
    ensures table { seat.new.table_id ≡ seat.old.table_id }
    ensures seen { seat.new.me ≡ note_step E.seen seat.old.me }
{
    board.store::<Notes>(seat, FAULTS as usize, count);
}

/// Gives up the turn.
pub fn give_up<E: Engine>(board: &Board<E>, seat: &mut Place<E>, turn: u64)
    requires at { IsAt board.now.table_id seat.old.table_id (the_view seat.old.me).clients }
    requires ready { IsReadyFor E.seen (E.seen board.now.key.value).standing.kind same_work seat.old.me }
    requires noted { IsGivingUp (the_view seat.old.me).work }
    requires same { engine_now E.seen seat.old.me ≡ engine_before seat.old.me }
    requires turn { turn ≡ 2 * (the_view seat.old.me).body.front }
    ensures table { seat.new.table_id ≡ seat.old.table_id }
    ensures seen { seat.new.me ≡ lets_go given_up seat.old.me }
{
    board.store::<GivesUp>(seat, TURN as usize, turn);
}
