//! The round that begins: its record, its replies, and the calls that store it.
ghost use Rattle.std.specs.Prelude.{◌≡◌, ℕ, ◌+◌, ◌<◌, ◌≤◌, false, [], length, vec_capacity};
ghost use Rattle.pb_pmem.specs.declared.line.TheConstants.{LINES};
ghost use Rattle.pb_object.specs.declared.kind.Kind.TheVariants.{Queue};
ghost use Rattle.pb_object.specs.Standing.{Standing};
ghost use Rattle.pb_layout.specs.Header.{record_length};
ghost use Rattle.pb_core.specs.DeviceParts.{IsWorld};
ghost use Rattle.pb_core.specs.Memory.{Held, clients_of};
ghost use Rattle.pb_core.specs.World.{World as CoreWorld};
ghost use Rattle.pb_engine.specs.Asks.{asked_round};
ghost use Rattle.pb_engine.specs.Next.{IsBegun};
ghost use Rattle.pb_round_play.specs.Items.{ItemsFit};
ghost use Rattle.pb_round_play.specs.Rounds.{MayBegin, MakesRecord};
ghost use Rattle.pb_play.specs.Rounds.{RepeatsRows, scanned_asks};
ghost use Rattle.pb_play.specs.Seats.{begins_round};
ghost use Rattle.pb_round_play.specs.Shape.{AreWithin};
ghost use Rattle.pb_play.specs.Worlds.{IsBuilt, IsHeldFor, ShowsWorld, GoesOnUnseen};

use crate::memory::Memory;
use crate::work::{Knowledge, Part, Work};
use crate::world::World;
use pb_layout::count_line;
use pb_pmem::Line;
use pb_round_play::{Items, Seat, ends_in, plan_store, record, serve, serve_heap, serve_queue};

/// The round of the requests that were scanned begins: its record is made, and the calls that store it are planned.
pub fn begin_round(world: &mut World, side: u32)
    requires shaped { IsBuilt world.old }
    requires held { IsHeldFor world.old side }
    requires over { world.old.memory.work ≡ Work.Scanning world.old.head.clients Part.AtNumber }
    requires idle { world.old.calls.going ≡ false }
    ensures shaped { IsBuilt world.new }
    ensures device { world.new.device ≡ world.old.device }
    ensures owner { world.new.memory.owner ≡ world.old.memory.owner }
    ensures on { (w : CoreWorld) (client : ℕ)
        → IsWorld w
        → ShowsWorld world.old w
        → w.memory.owner ≡ Held client side
        → client < clients_of w.memory
        → GoesOnUnseen w world.new }
{
    let head = world.head;
    let rounds = world.memory.rounds.of(side);
    repeat_rows(&mut world.memory);
    world.calls.plan.clear();
    make_record(world, side);
    plan_store(
        &mut world.calls.plan,
        &head,
        side,
        rounds,
        &world.device.lines,
        &world.next,
    );
    write_ahead(&mut world.memory, side);
    world.calls.begin();
}

fn write_ahead(memory: &mut Memory, side: u32)
    ensures { memory.new ≡ begins_round side memory.old }
{
    memory.ahead = Some(side);
    memory.work = Work::Calling;
    memory.knowledge = Knowledge::Writing;
}

// Without a request in the round a client's next row is the published one.
fn repeat_rows(memory: &mut Memory)
    ensures { RepeatsRows memory.old memory.new }
{
    for place in 0..16 {
        let seat = memory.seats[place];
        memory.seats[place] = Seat {
            ahead: seat.row(memory.turn),
            ..seat
        };
    }
}

// Makes the record of the round, the next rows, and the calls that put its items.
fn make_record(world: &mut World, side: u32)
    requires device { length world.old.device.lines.items ≡ LINES }
    requires items { ItemsFit world.old.head world.old.items }
    requires next { length world.old.next.items ≡ record_length world.old.head }
    requires plan { world.old.calls.plan.items ≡ [] }
    requires room { 32 ≤ vec_capacity world.old.calls.plan }
    requires met { world.old.memory.met ≤ 16 }
    requires may { (s : Standing) × MayBegin world.old.head world.old.device.lines.items world.old.memory.rounds (scanned_asks world.old.memory) side s }
    ensures frame { world.new ≡ record world.old {
      memory = record world.old.memory { seats = world.new.memory.seats };
      calls = record world.old.calls { plan = world.new.calls.plan };
      next = world.new.next;
      items = world.new.items;
    } }
    ensures items { ItemsFit world.new.head world.new.items }
    ensures next { length world.new.next.items ≡ record_length world.old.head }
    ensures few { length world.new.calls.plan.items ≤ 32 }
    ensures within { AreWithin world.new.calls.plan.items }
    ensures capacity { vec_capacity world.old.calls.plan ≤ vec_capacity world.new.calls.plan }
    ensures made { (s : Standing)
        → MayBegin world.old.head world.old.device.lines.items world.old.memory.rounds (scanned_asks world.old.memory) side s
        → MakesRecord world.old.device.lines.items s (asked_round s (scanned_asks world.old.memory)) world.old.memory.seats world.new.next.items world.new.memory.seats world.new.calls.plan.items }
{
    let head = world.head;
    let rounds = world.memory.rounds;
    let seen = world.memory.seen;
    let asks = seen.split_at(world.memory.met as usize).0;
    let lines = world.device.lines.as_slice();
    let before = record(lines, &head, side, rounds.of(side));
    let next = world.next.as_mut_slice();
    let seats = &mut world.memory.seats;
    begin_record(next, before, rounds.of(side) + 1);
    match &mut world.items {
        Items::Map(map) => serve(map, &head, asks, before, next, seats),
        Items::Stack(stack) => serve(stack, &head, asks, before, next, seats),
        Items::Heap { heap, rising } => {
            serve_heap(heap, rising, &head, asks, before, next, seats);
        }
        Items::Queue => {
            let ends = ends_in(lines, &head, rounds);
            let plan = &mut world.calls.plan;
            serve_queue(ends, side, &head, asks, lines, before, next, seats, plan);
        }
    }
}

// Begins the record after the one in use: its lines, with the next round number.
fn begin_record(next: &mut [Line], before: &[Line], round: u64)
    requires long { length before.now ≡ length next.old }
    requires some { 0 < length next.old }
    ensures { IsBegun before.now round next.new }
{
    next.copy_from_slice(before);
    next[0] = count_line(round);
}
