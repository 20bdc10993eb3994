//! Storing the next reply row, and publishing.
ghost use Rattle.std.specs.Prelude.{◌≡◌, ◌<◌, ◌≤◌, ◌+◌, ◌*◌, ◌%◌, ◌∷◌, [], suc, Option};
ghost use Rattle.pb_engine.specs.View.{EngineView};
ghost use Rattle.pb_object.specs.Standing.{newest_of};
ghost use Rattle.pb_core.specs.Client.{row_word as word_of_row};
ghost use Rattle.pb_rule.specs.Plays.{the_view, engine_now};
ghost use Rattle.pb_rule.specs.Seats.{IsAt};
ghost use Rattle.pb_rule.specs.View.{OwnRound, PassView};
ghost use Rattle.pb_shared.specs.Filling.{IsFilling, HasFilling, after_publishing};

use pb_engine::Engine;
use pb_object::Kept;
use pb_rule::engines::kept_of;
use pb_rule::holding::{publish, store_row};
use pb_rule::{Board, Place};

/// Stores each client's kept reply in the row of the next round, and publishes with this turn word. The answer is the own client's last
/// recorded request.
pub fn finish<E: Engine>(
    board: &Board<E>,
    seat: &mut Place<E>,
    client: u32,
    clients: u32,
    row: u32,
    turn: u64,
) -> Kept
    requires at { IsAt board.now.table_id seat.old.table_id clients }
    requires clients { (clients ≡ (the_view seat.old.me).clients) × (clients ≤ 16) }
    requires client { (client ≡ (the_view seat.old.me).client) × (client < clients) }
    requires row { row ≡ suc (the_view seat.old.me).body.front % 2 }
    requires turn { turn ≡ 2 * suc (the_view seat.old.me).body.front }
    requires filling { HasFilling E.seen (E.seen board.now.key.value).standing.kind 0 seat.old.me }
    ensures table { seat.new.table_id ≡ seat.old.table_id }
    ensures published { (start : PassView) (engine : EngineView) (own : Option OwnRound) → IsFilling E.seen (E.seen board.now.key.value).standing.kind start engine own 0 seat.old.me
        → (seat.new.me ≡ (after_publishing engine own start ∷ [], [])) × (result ≡ newest_of engine.standing client) }
{
    fill(board, seat, clients, row);
    let kept = kept_of(board, seat, client);
    publish(board, seat, turn);
    kept
}

// Stores the row of the next round.
fn fill<E: Engine>(board: &Board<E>, seat: &mut Place<E>, clients: u32, row: u32)
    requires at { IsAt board.now.table_id seat.old.table_id clients }
    requires clients { (clients ≡ (the_view seat.old.me).clients) × (clients ≤ 16) }
    requires row { row ≡ suc (the_view seat.old.me).body.front % 2 }
    requires filling { HasFilling E.seen (E.seen board.now.key.value).standing.kind 0 seat.old.me }
    ensures table { seat.new.table_id ≡ seat.old.table_id }
    ensures filled { (start : PassView) (engine : EngineView) (own : Option OwnRound) → IsFilling E.seen (E.seen board.now.key.value).standing.kind start engine own 0 seat.old.me → IsFilling E.seen (E.seen board.now.key.value).standing.kind start engine own (4 * clients) seat.new.me }
{
    for client in 0..clients {
        fill_client(board, seat, client, row);
    }
}

// The four words of one client.
fn fill_client<E: Engine>(board: &Board<E>, seat: &mut Place<E>, client: u32, row: u32)
    requires at { IsAt board.now.table_id seat.old.table_id (the_view seat.old.me).clients }
    requires client { (client < (the_view seat.old.me).clients) × (client < 16) }
    requires row { row ≡ suc (the_view seat.old.me).body.front % 2 }
    requires filling { HasFilling E.seen (E.seen board.now.key.value).standing.kind (4 * client) seat.old.me }
    ensures table { seat.new.table_id ≡ seat.old.table_id }
    ensures filled { (start : PassView) (engine : EngineView) (own : Option OwnRound) → IsFilling E.seen (E.seen board.now.key.value).standing.kind start engine own (4 * client) seat.old.me → IsFilling E.seen (E.seen board.now.key.value).standing.kind start engine own (4 * client + 4) seat.new.me }
{
    let kept = kept_of(board, seat, client);
    fill_word(board, seat, client, row, 0, kept.number);
    fill_word(board, seat, client, row, 1, kept.reply.code);
    fill_word(board, seat, client, row, 2, kept.reply.value);
    fill_word(board, seat, client, row, 3, kept.reply.extra);
}

// One word.
fn fill_word<E: Engine>(
    board: &Board<E>,
    seat: &mut Place<E>,
    client: u32,
    row: u32,
    place: u32,
    word: u64,
)
    requires at { IsAt board.now.table_id seat.old.table_id (the_view seat.old.me).clients }
    requires client { (client < (the_view seat.old.me).clients) × (client < 16) }
    requires row { row ≡ suc (the_view seat.old.me).body.front % 2 }
    requires place { place < 4 }
    requires filling { HasFilling E.seen (E.seen board.now.key.value).standing.kind (4 * client + place) seat.old.me }
    requires word { word ≡ word_of_row (newest_of (engine_now E.seen seat.old.me).standing client) place }
    ensures table { seat.new.table_id ≡ seat.old.table_id }
    ensures same { ((the_view seat.new.me).clients ≡ (the_view seat.old.me).clients) × ((the_view seat.new.me).body ≡ (the_view seat.old.me).body) × (engine_now E.seen seat.new.me ≡ engine_now E.seen seat.old.me) }
    ensures filled { (start : PassView) (engine : EngineView) (own : Option OwnRound) → IsFilling E.seen (E.seen board.now.key.value).standing.kind start engine own (4 * client + place) seat.old.me → IsFilling E.seen (E.seen board.now.key.value).standing.kind start engine own (4 * client + place + 1) seat.new.me }
{
    store_row(board, seat, client, row, place, word);
}
