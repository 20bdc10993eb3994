//! Applying the requests of a round to an object with one side.
ghost use Rattle.std.specs.Prelude.{◌≡◌, ◌+◌, ◌*◌, ◌<◌, length, slice_set};
ghost use Rattle.pb_object.specs.declared.kind.Kind.TheVariants.{Heap};
ghost use Rattle.pb_object.specs.Object.{State};
ghost use Rattle.pb_object.specs.ObjectLines.{kind_of, size_of, LinesRepresent};
ghost use Rattle.pb_layout.specs.Header.{record_length};
ghost use Rattle.pb_layout.specs.Represents.{object_part};
ghost use Rattle.pb_layout.specs.Slots.{PutsInFront};
ghost use Rattle.pb_engine.specs.Asks.{answered_from, state_from};
ghost use Rattle.pb_engine.specs.Next.{PutsEntries};
ghost use Rattle.pb_comb.specs.Serving.{AreServable};
ghost use Rattle.pb_core.specs.Play.{ListsRising};
ghost use Rattle.pb_round_play.specs.Rounds.{with_rows};
ghost use Rattle.pb_round_play.specs.Seats.{seat_at};
ghost use Rattle.pb_round_play.specs.Serving.{HasServed};

use crate::items::write_rising;
use crate::seat::{Row, Seat};
use pb_heap::MinHeap;
use pb_layout::{Header, put_in_front};
use pb_object::{Ask, KEPT_REQUESTS, Kept, Object, Reply};
use pb_pmem::Line;

/// Applies the requests of a round one after the other to the object that a record holds, puts each with its reply in front of its
/// client's slots, and writes the object's lines.
pub fn serve<O: Object>(
    object: &mut O,
    head: &Header,
    asks: &[Ask],
    before: &[Line],
    next: &mut [Line],
    seats: &mut [Seat],
)
    requires kind { O.KIND ≡ head.now.kind }
    requires size { size_of (O.state object.old) ≡ head.now.size }
    requires before { length before.now ≡ record_length head.now }
    requires next { length next.old ≡ record_length head.now }
    requires seats { length seats.old ≡ 16 }
    requires asks { AreServable head.now.kind before.now asks.now }
    ensures size { size_of (O.state object.new) ≡ head.now.size }
    ensures next { length next.new ≡ record_length head.now }
    ensures seats { length seats.new ≡ 16 }
    ensures served { (state : State)
        → kind_of state ≡ head.now.kind
        → size_of state ≡ head.now.size
        → LinesRepresent (object_part head.now before.now) state
        → HasServed head.now before.now state asks.now next.old next.new seats.old seats.new
        × (O.state object.new ≡ state_from state asks.now) }
    ensures state { LinesRepresent (object_part head.now next.new) (O.state object.new) }
{
    let first = (1 + KEPT_REQUESTS * head.clients) as usize;
    let _ = object.take_lines(before.split_at(first).1);
    answer(object, asks, before, next, seats);
    object.put_lines(next.split_at_mut(first).1);
}

/// The same for a heap, whose items are written in rising order.
pub fn serve_heap(
    heap: &mut MinHeap,
    rising: &mut [u64],
    head: &Header,
    asks: &[Ask],
    before: &[Line],
    next: &mut [Line],
    seats: &mut [Seat],
)
    requires kind { head.now.kind ≡ Heap }
    requires size { heap.old.size ≡ head.now.size }
    requires places { length rising.old ≡ head.now.size }
    requires before { length before.now ≡ record_length head.now }
    requires next { length next.old ≡ record_length head.now }
    requires seats { length seats.old ≡ 16 }
    requires asks { AreServable head.now.kind before.now asks.now }
    ensures size { heap.new.size ≡ head.now.size }
    ensures places { length rising.new ≡ length rising.old }
    ensures next { length next.new ≡ record_length head.now }
    ensures seats { length seats.new ≡ 16 }
    ensures served { (state : State)
        → kind_of state ≡ head.now.kind
        → size_of state ≡ head.now.size
        → LinesRepresent (object_part head.now before.now) state
        → HasServed head.now before.now state asks.now next.old next.new seats.old seats.new
        × ListsRising (state_from state asks.now) (object_part head.now next.new) }
{
    let first = (1 + KEPT_REQUESTS * head.clients) as usize;
    serve(heap, head, asks, before, next, seats);
    write_rising(heap, rising, next.split_at_mut(first).1);
}

// Applies the requests one after the other, and puts each with its reply in front of its client's slots and into its next row.
fn answer<O: Object>(
    object: &mut O,
    asks: &[Ask],
    before: &[Line],
    next: &mut [Line],
    seats: &mut [Seat],
)
    requires before { AreServable O.KIND before.now asks.now }
    requires room { AreServable O.KIND next.old asks.now }
    requires seats { length seats.old ≡ 16 }
    ensures state { O.state object.new ≡ state_from (O.state object.old) asks.now }
    ensures entries { PutsEntries before.now (answered_from (O.state object.old) asks.now) next.old next.new }
    ensures rows { seats.new ≡ with_rows (answered_from (O.state object.old) asks.now) seats.old }
{
    for ask in asks {
        let reply = object.apply(&ask.op);
        put(ask, reply, before, next, seats);
    }
}

/// Puts a request with its reply in front of its client's slots, and into its next row.
pub fn put(ask: &Ask, reply: Reply, before: &[Line], next: &mut [Line], seats: &mut [Seat])
    requires client { ask.now.client < 16 }
    requires before { 8 * ask.now.client + 8 < length before.now }
    requires room { 8 * ask.now.client + 8 < length next.old }
    requires seats { length seats.old ≡ 16 }
    ensures slots { PutsInFront before.now ask.now.client (record { number = ask.now.number; op = ask.now.op; reply = reply }) next.old next.new }
    ensures long { length next.new ≡ length next.old }
    ensures seats { seats.new ≡ slice_set seats.old ask.now.client (record (seat_at seats.old ask.now.client) { ahead = record { number = ask.now.number; reply = reply } }) }
{
    let kept = Kept {
        number: ask.number,
        op: ask.op,
        reply,
    };
    put_in_front(before, ask.client, &kept, next);
    let seat = seats[ask.client as usize];
    seats[ask.client as usize] = Seat {
        ahead: Row::of(&kept),
        ..seat
    };
}
