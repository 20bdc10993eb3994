//! Which events are possible.
ghost use Rattle.std.specs.Prelude.{◌≡◌, ◌↔◌, List, IsTrue};
ghost use Rattle.pb_object.specs.declared.request.Ask.{Ask};
ghost use Rattle.pb_core.specs.DeviceParts.{IsWorld};
ghost use Rattle.pb_core.specs.Memory.{Scanning, clients_of};
ghost use Rattle.pb_core.specs.Client.{is_idle};
ghost use Rattle.pb_core.specs.Possible.{IsReopening, MayAsk, MayStep, MayFail, IsCallDue};
ghost use Rattle.pb_core.specs.World.{World as CoreWorld};
ghost use Rattle.pb_play.specs.Maps.{stage_of, part_of};
ghost use Rattle.pb_play.specs.Worlds.{ShowsWorld};

use crate::scan::follows;
use crate::work::{Owner, Part, Work};
use crate::world::World;
use pb_object::{Ask, LAST_NUMBER, is_operation};
use pb_round_play::{Seat, Stage};

/// Whether the region is being opened again, and something is left to do.
pub fn is_reopening(world: &World) -> bool
    ensures { (w : CoreWorld) → ShowsWorld world.now w → IsTrue result ↔ IsReopening w }
{
    match world.memory.owner {
        Owner::Free => false,
        Owner::Held { .. } => false,
        Owner::Closed => !world.calls.going || world.calls.are_left(),
    }
}

/// Whether a client may ask for something.
pub fn may_ask(world: &World, ask: &Ask) -> bool
    ensures { (w : CoreWorld) → ShowsWorld world.now w → IsTrue result ↔ MayAsk w ask.now }
{
    let head = world.memory.head;
    if is_reopening(world) || ask.client >= head.clients {
        return false;
    }
    let seat = world.memory.seats[ask.client as usize];
    is_idle(&seat)
        && ask.number <= LAST_NUMBER
        && follows(ask.number, seat.last)
        && is_operation(head.kind, &ask.op)
}

fn is_idle(seat: &Seat) -> bool
    ensures { result ≡ is_idle (stage_of seat.now.stage) }
{
    match seat.stage {
        Stage::Idle => true,
        Stage::Storing { .. } => false,
        Stage::Looking => false,
        Stage::LoadsNumber { .. } => false,
        Stage::LoadsCode { .. } => false,
        Stage::LoadsValue { .. } => false,
        Stage::LoadsExtra { .. } => false,
        Stage::Confirming { .. } => false,
        Stage::Lacking { .. } => false,
        Stage::Taking { .. } => false,
        Stage::Holding => false,
    }
}

/// Whether a client may make a step.
pub fn may_step(world: &World, client: u32) -> bool
    ensures { (w : CoreWorld) → ShowsWorld world.now w → IsTrue result ↔ MayStep w client }
{
    let head = world.memory.head;
    if is_reopening(world) || client >= head.clients {
        return false;
    }
    !is_idle(&world.memory.seats[client as usize])
}

/// Whether a client's next step is a call of the device.
pub fn may_fail(world: &World, client: u32) -> bool
    ensures { (w : CoreWorld) → IsWorld w → ShowsWorld world.now w → IsTrue result ↔ MayFail w client }
{
    match world.memory.owner {
        Owner::Free => false,
        Owner::Held { client: holder, .. } => {
            let head = world.memory.head;
            holder == client && client < head.clients && is_call_due(world)
        }
        Owner::Closed => false,
    }
}

fn is_call_due(world: &World) -> bool
    ensures { (w : CoreWorld) → ShowsWorld world.now w → IsTrue result ↔ IsCallDue w.memory.work w.progress (clients_of w.memory) }
{
    match world.memory.work {
        Work::NoWork => false,
        Work::Settling => !world.calls.going || world.calls.are_left(),
        Work::Scanning { client, part } => is_over(world, client, part),
        Work::Calling => world.calls.going && world.calls.are_left(),
        Work::Filling { .. } => false,
        Work::Noting { .. } => false,
        Work::GivingUp { .. } => false,
    }
}

// Whether the scan is over, and the round doesn't begin yet.
fn is_over(world: &World, client: u32, part: Part) -> bool
    ensures { (w : CoreWorld) (seen : List Ask) → ShowsWorld world.now w → IsTrue result ↔ IsCallDue (Scanning client (part_of part) seen) w.progress (clients_of w.memory) }
{
    let head = world.memory.head;
    match part {
        Part::AtNumber => !world.calls.going && client == head.clients,
        Part::AtCode { .. } => false,
        Part::AtFirst { .. } => false,
        Part::AtSecond { .. } => false,
        Part::AtThird { .. } => false,
    }
}
