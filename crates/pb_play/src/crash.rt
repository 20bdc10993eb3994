//! A crash, in place.
ghost use Rattle.std.specs.Prelude.{◌≡◌, ℕ, ◌<◌, List, [], length};
ghost use Rattle.pb_pmem.specs.declared.line.TheConstants.{LINES};
ghost use Rattle.pb_crash.specs.Picked.{picked};
ghost use Rattle.pb_events.specs.declared.event.Event.{Event};
ghost use Rattle.pb_core.specs.DeviceParts.{IsWorld};
ghost use Rattle.pb_core.specs.Possible.{MayCrash};
ghost use Rattle.pb_core.specs.World.{World as CoreWorld};
ghost use Rattle.pb_play.specs.Shape.{IsDevice};
ghost use Rattle.pb_object.specs.Standing.{Standing};
ghost use Rattle.pb_object.specs.History.{History, Entry, state_after};
ghost use Rattle.pb_layout.specs.Recovered.{Represents};
ghost use Rattle.pb_layout.specs.Represents.{header_for};
ghost use Rattle.pb_core.specs.Memory.{memory_at_opening};
ghost use Rattle.pb_pmem.specs.Lines.{word_of};
ghost use Rattle.pb_object.specs.Standing.{side_count};
ghost use Rattle.pb_layout.specs.Slots.{newer_of};
ghost use Rattle.pb_round_play.specs.Seats.{fresh_seat};
ghost use Rattle.pb_play.specs.Found.{found_row, found_kept};
ghost use Rattle.pb_round_play.specs.Seats.{seat_at};
ghost use Rattle.pb_play.specs.Shown.{ShowsMemory};
ghost use Rattle.pb_play.specs.Worlds.{IsBuilt, ShowsWorld, HasStepped};

use crate::device::Device;
use crate::memory::Memory;
use crate::work::{Knowledge, Owner};
use crate::world::World;
use pb_crash::leave_image;
use pb_events::Stepped;
use pb_layout::{Header, kept_in_slot};
use pb_object::{Kept, Kind};
use pb_pmem::Line;
use pb_round_play::{Rounds, Row, Seat, record};

/// A crash leaves the image of a pick at a cut, and all that isn't on the device is gone.
pub fn crash(world: &mut World, cut: u32, pick: u64) -> Stepped
    requires { IsBuilt world.old }
    ensures shaped { IsBuilt world.new }
    ensures room { world.new.device.room ≡ world.old.device.room }
    ensures log { world.new.device.log.items ≡ [] }
    ensures stepped { (w : CoreWorld)
        → IsWorld w
        → ShowsWorld world.old w
        → MayCrash w cut
        → HasStepped w (Event.Crash cut pick) world.new result }
{
    leave(&mut world.device, cut, pick);
    world.calls.end();
    world.memory = found(&world.device.lines, &world.head);
    Stepped::Went
}

// Memory as it is made anew over the lines of a region, which is to be opened again.
fn found(lines: &[Line], head: &Header) -> Memory
    requires { length lines.now ≡ LINES }
    ensures { (start : Standing) (past : History) (answers : List Entry)
        → Represents lines.now (state_after start past)
        → header_for start ≡ head.now
        → ShowsMemory result (memory_at_opening start past answers) }
{
    let rounds = rounds_in(lines);
    let mut memory = Memory {
        owner: Owner::Closed,
        knowledge: Knowledge::Doubtful,
        rounds,
        ..Memory::fresh(*head)
    };
    reseat(&mut memory.seats, lines, head, rounds);
    memory
}

fn reseat(seats: &mut [Seat], lines: &[Line], head: &Header, rounds: Rounds)
    requires whole { length lines.now ≡ LINES }
    requires seats { length seats.old ≡ 16 }
    ensures long { length seats.new ≡ 16 }
    ensures found { (client : ℕ) → client < head.now.clients → seat_at seats.new client ≡ fresh_seat (found_row head.now.kind lines.now head.now rounds client) }
{
    let clients = head.clients;
    for client in 0..clients {
        seats[client as usize] = Seat::fresh(row_of(lines, head, rounds, client));
    }
}

// How many rounds of each side a region has. An object with one side has none of the second.
fn rounds_in(lines: &[Line]) -> Rounds
    requires { length lines.now ≡ LINES }
    ensures first { result.first ≡ word_of lines.now 1 0 }
    ensures second { result.second ≡ word_of lines.now 2 0 }
{
    Rounds {
        first: lines[1].words[0],
        second: lines[2].words[0],
    }
}

// The last recorded request of a client, as a row.
fn row_of(lines: &[Line], head: &Header, rounds: Rounds, client: u32) -> Row
    requires whole { length lines.now ≡ LINES }
    requires there { client < head.now.clients }
    ensures { result ≡ found_row head.now.kind lines.now head.now rounds client }
{
    match head.kind {
        Kind::Map => Row::of(&newest_in(lines, head, 0, rounds.first, client)),
        Kind::Stack => Row::of(&newest_in(lines, head, 0, rounds.first, client)),
        Kind::Heap => Row::of(&newest_in(lines, head, 0, rounds.first, client)),
        Kind::Queue => {
            let put = newest_in(lines, head, 0, rounds.first, client);
            let take = newest_in(lines, head, 1, rounds.second, client);
            Row::of(&newer(put, take))
        }
    }
}

fn newer(put: Kept, take: Kept) -> Kept
    ensures { result ≡ newer_of put take }
{
    if put.number < take.number { take } else { put }
}

// The newest request in a client's slots of a side.
fn newest_in(lines: &[Line], head: &Header, side: u32, rounds: u64, client: u32) -> Kept
    requires side { side < side_count head.now.kind }
    requires whole { length lines.now ≡ LINES }
    requires there { client < head.now.clients }
    ensures { result ≡ found_kept lines.now head.now side rounds client }
{
    let clients = head.clients;
    let _ = clients;
    kept_in_slot(record(lines, head, side, rounds), client, 0)
}

// Leaves in the base and in the lines the image of a pick at a cut. The log is empty then.
fn leave(device: &mut Device, cut: u32, pick: u64)
    requires { IsDevice device.old }
    ensures base { device.new.base.items ≡ picked device.old.base.items device.old.log.items cut pick }
    ensures lines { device.new.lines.items ≡ device.new.base.items }
    ensures log { device.new.log.items ≡ [] }
    ensures room { device.new.room ≡ device.old.room }
    ensures device { IsDevice device.new }
{
    leave_image(&mut device.base, &device.log, cut, pick, &mut device.backs);
    device.lines.copy_from_slice(&device.base);
    device.log.clear();
}
