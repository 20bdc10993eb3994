//! The steps of the client that holds the turn.
ghost use Rattle.std.specs.Prelude.{◌≡◌, ◌<◌};
ghost use Rattle.pb_events.specs.declared.event.Event.{Event};
ghost use Rattle.pb_core.specs.DeviceParts.{IsWorld};
ghost use Rattle.pb_core.specs.Memory.{Held, clients_of};
ghost use Rattle.pb_core.specs.World.{World as CoreWorld};
ghost use Rattle.pb_play.specs.Worlds.{IsBuilt, IsShown, HasRoom, LosesOneAtMost, ShowsWorld, MovesTo, HasStepped};
ghost use Rattle.pb_core.specs.Play.{IsReadyForStep};

use crate::between::{call, go_on};
use crate::publish::{fill, give_up, note};
use crate::scan::scan;
use crate::work::{Owner, Part, Work};
use crate::world::World;
use pb_events::Stepped;

/// The holder of the turn makes its next step.
pub fn hold(world: &mut World, client: u32, side: u32) -> Stepped
    requires shaped { IsBuilt world.old }
    requires shown { IsShown world.old }
    requires room { HasRoom world.old }
    requires holds { world.old.memory.owner ≡ Owner.Held client side }
    requires small { client < 16 }
    requires there { client < world.old.memory.head.clients }
    ensures shaped { IsBuilt world.new }
    ensures spare { LosesOneAtMost world.old world.new }
    ensures stepped { (w : CoreWorld)
        → IsWorld w
        → ShowsWorld world.old w
        → client < clients_of w.memory
        → HasStepped w (Event.Step client) world.new result }
{
    go_on(world, side);
    act(world, client, side)
}

// It makes a step before which nothing happens that nobody sees.
fn act(world: &mut World, client: u32, side: u32) -> Stepped
    requires shaped { IsBuilt world.old }
    requires room { HasRoom world.old }
    requires holds { world.old.memory.owner ≡ Owner.Held client side }
    requires small { client < 16 }
    ensures shaped { IsBuilt world.new }
    ensures spare { LosesOneAtMost world.old world.new }
    ensures moved { (w : CoreWorld)
        → IsWorld w
        → ShowsWorld world.old w
        → client < clients_of w.memory
        → IsReadyForStep w.memory.work (clients_of w.memory) w.progress
        → MovesTo w (Event.Step client) world.new result }
{
    match world.memory.work {
        Work::NoWork => Stepped::Impossible,
        Work::Settling => call(world),
        Work::Scanning {
            client: scanned,
            part,
        } => scan_next(world, client, side, scanned, part),
        Work::Calling => call(world),
        Work::Filling { count } => fill(&mut world.memory, client, side, count),
        Work::Noting { from, to } => note(&mut world.memory, client, side, from, to),
        Work::GivingUp { from, to } => give_up(&mut world.memory, client, side, from, to),
    }
}

// It scans the next word, of a client that is there.
fn scan_next(world: &mut World, client: u32, side: u32, scanned: u32, part: Part) -> Stepped
    requires shaped { IsBuilt world.old }
    requires holds { world.old.memory.owner ≡ Owner.Held client side }
    requires at { world.old.memory.work ≡ Work.Scanning scanned part }
    ensures shaped { IsBuilt world.new }
    ensures device { world.new.device ≡ world.old.device }
    ensures moved { (w : CoreWorld)
        → IsWorld w
        → ShowsWorld world.old w
        → client < clients_of w.memory
        → IsReadyForStep w.memory.work (clients_of w.memory) w.progress
        → MovesTo w (Event.Step client) world.new result }
{
    let head = world.memory.head;
    if scanned < head.clients {
        scan(&mut world.memory, scanned, part, side)
    } else {
        let _ = client;
        Stepped::Impossible
    }
}
