ghost use Rattle.std.specs.Prelude.{◌≡◌, ◌<◌};
ghost use Rattle.pb_events.specs.declared.event.Event.{Event};
ghost use Rattle.pb_core.specs.DeviceParts.{IsWorld};
ghost use Rattle.pb_core.specs.Possible.{MayStep, MayFail};
ghost use Rattle.pb_core.specs.World.{World as CoreWorld};
ghost use Rattle.pb_play.specs.Worlds.{IsBuilt, IsShown, IsShaped, HasRoom, LosesOneAtMost, ShowsWorld, HasStepped, PlaysExactly, PlaysEvent, HappensWhereItMay};

use crate::between::{fail, go_on};
use crate::crash::crash;
use crate::hold::hold;
use crate::possible::{is_reopening, may_ask, may_fail, may_step};
use crate::reopen::{fail_to_reopen, open, reopen};
use crate::wait::{begin_asking, wait};
use crate::work::Owner;
use crate::world::World;
use pb_crash::{Leaves, cuts_of};
use pb_events::{Event, Stepped};
use pb_object::Ask;

/// Makes an event. `Impossible` comes exactly where it may not happen now, and then nothing changes.
///
/// What is asked of the world, that it shows one of the core, `World::fresh` gives and each step keeps.
///
/// It takes no memory, and there is room for at most one event less after it. A step that begins the calls of a round goes over the
/// round's record once, and a crash over the log and the device's lines; each other event takes constant time.
pub fn step(world: &mut World, event: &Event) -> Stepped
    requires shaped { IsShaped world.old }
    requires room { HasRoom world.old }
    ensures shaped { IsShaped world.new }
    ensures spare { LosesOneAtMost world.old world.new }
    ensures plays { PlaysEvent world.old event.now world.new result }
    ensures happens { HappensWhereItMay world.old event.now world.new result }
{
    match *event {
        Event::Ask(ask) => step_ask(world, &ask),
        Event::Step { client } => step_client(world, client),
        Event::Fail { client, how } => step_fail(world, client, how),
        Event::Crash { cut, pick } => step_crash(world, cut, pick),
        Event::Reopen => step_reopen(world),
        Event::ReopenFail { how } => step_reopen_fail(world, how),
    }
}

fn step_ask(world: &mut World, ask: &Ask) -> Stepped
    requires { IsBuilt world.old }
    ensures shaped { IsBuilt world.new }
    ensures device { world.new.device ≡ world.old.device }
    ensures plays { PlaysExactly world.old (Event.Ask ask.now) world.new result }
{
    let head = world.memory.head;
    if ask.client >= head.clients {
        return Stepped::Impossible;
    }
    if !may_ask(world, ask) {
        return Stepped::Impossible;
    }
    open(world);
    begin_asking(&mut world.memory, ask);
    Stepped::Went
}

fn step_client(world: &mut World, client: u32) -> Stepped
    requires shaped { IsBuilt world.old }
    requires shown { IsShown world.old }
    requires room { HasRoom world.old }
    ensures shaped { IsBuilt world.new }
    ensures spare { LosesOneAtMost world.old world.new }
    ensures plays { PlaysExactly world.old (Event.Step client) world.new result }
{
    let head = world.memory.head;
    if client >= head.clients {
        return Stepped::Impossible;
    }
    if !may_step(world, client) {
        return Stepped::Impossible;
    }
    match world.memory.owner {
        Owner::Free => wait(&mut world.memory, client),
        Owner::Held {
            client: holder,
            side,
        } => step_beside(world, client, holder, side),
        Owner::Closed => wait(&mut world.memory, client),
    }
}

// A client makes a step while one holds the turn, perhaps itself.
fn step_beside(world: &mut World, client: u32, holder: u32, side: u32) -> Stepped
    requires shaped { IsBuilt world.old }
    requires shown { IsShown world.old }
    requires room { HasRoom world.old }
    requires small { client < 16 }
    requires there { client < world.old.memory.head.clients }
    requires holds { world.old.memory.owner ≡ Owner.Held holder side }
    ensures shaped { IsBuilt world.new }
    ensures spare { LosesOneAtMost world.old world.new }
    ensures stepped { (w : CoreWorld)
        → IsWorld w
        → ShowsWorld world.old w
        → MayStep w client
        → HasStepped w (Event.Step client) world.new result }
{
    if holder == client {
        hold(world, client, side)
    } else {
        wait(&mut world.memory, client)
    }
}

fn step_fail(world: &mut World, client: u32, how: Leaves) -> Stepped
    requires shaped { IsBuilt world.old }
    requires shown { IsShown world.old }
    requires room { HasRoom world.old }
    ensures shaped { IsBuilt world.new }
    ensures spare { LosesOneAtMost world.old world.new }
    ensures plays { PlaysExactly world.old (Event.Fail client how) world.new result }
{
    if !may_fail(world, client) {
        return Stepped::Impossible;
    }
    match world.memory.owner {
        Owner::Free => Stepped::Impossible,
        Owner::Held {
            client: holder,
            side,
        } => fail_next(world, client, holder, side, how),
        Owner::Closed => Stepped::Impossible,
    }
}

fn fail_next(world: &mut World, client: u32, holder: u32, side: u32, how: Leaves) -> Stepped
    requires shaped { IsBuilt world.old }
    requires shown { IsShown world.old }
    requires room { HasRoom world.old }
    requires may { (w : CoreWorld) → IsWorld w → ShowsWorld world.old w → MayFail w client }
    requires holds { world.old.memory.owner ≡ Owner.Held holder side }
    ensures shaped { IsBuilt world.new }
    ensures spare { LosesOneAtMost world.old world.new }
    ensures stepped { (w : CoreWorld)
        → IsWorld w
        → ShowsWorld world.old w
        → MayFail w client
        → HasStepped w (Event.Fail client how) world.new result }
{
    if holder != client {
        return Stepped::Impossible;
    }
    go_on(world, side);
    fail(world, client, side, how)
}

fn step_crash(world: &mut World, cut: u32, pick: u64) -> Stepped
    requires { IsBuilt world.old }
    ensures shaped { IsBuilt world.new }
    ensures spare { LosesOneAtMost world.old world.new }
    ensures plays { PlaysExactly world.old (Event.Crash cut pick) world.new result }
{
    let (least, greatest) = cuts_of(&world.device.log);
    if cut < least {
        return Stepped::Impossible;
    }
    if greatest < cut {
        return Stepped::Impossible;
    }
    crash(world, cut, pick)
}

fn step_reopen(world: &mut World) -> Stepped
    requires shaped { IsBuilt world.old }
    requires room { HasRoom world.old }
    ensures shaped { IsBuilt world.new }
    ensures spare { LosesOneAtMost world.old world.new }
    ensures plays { PlaysExactly world.old Event.Reopen world.new result }
{
    if !is_reopening(world) {
        return Stepped::Impossible;
    }
    reopen(world)
}

fn step_reopen_fail(world: &mut World, how: Leaves) -> Stepped
    requires shaped { IsBuilt world.old }
    requires room { HasRoom world.old }
    ensures shaped { IsBuilt world.new }
    ensures spare { LosesOneAtMost world.old world.new }
    ensures plays { PlaysExactly world.old (Event.ReopenFail how) world.new result }
{
    if !is_reopening(world) {
        return Stepped::Impossible;
    }
    fail_to_reopen(world, how)
}
