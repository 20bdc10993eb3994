//! What nobody sees, between the holder's steps: its calls of the device begin, and they end.
ghost use Rattle.std.specs.Prelude.{◌≡◌, ℕ, ◌<◌};
ghost use Rattle.pb_core.specs.DeviceParts.{IsWorld};
ghost use Rattle.pb_core.specs.Memory.{Held, Settling, Calling, clients_of};
ghost use Rattle.pb_core.specs.World.{World as CoreWorld};
ghost use Rattle.pb_pmem.specs.Count.{Rose};
ghost use Rattle.pb_events.specs.declared.event.Event.{Event};
ghost use Rattle.pb_core.specs.Play.{IsCallable};
ghost use Rattle.pb_round_play.specs.Counts.{counted};
ghost use Rattle.pb_play.specs.Seats.{with_ahead, recorded, begins_scan, settled, fails, drops};
ghost use Rattle.pb_play.specs.Worlds.{IsBuilt, IsHeldFor, HasRoom, LosesOneAtMost, ShowsWorld, GoesOnUnseen, CallsNext, IsDue, MovesTo};

use crate::memory::Memory;
use crate::next::begin_round;
use crate::work::{Knowledge, Owner, Part, Work};
use crate::world::World;
use pb_crash::Leaves;
use pb_events::Stepped;
use pb_round_play::{Rounds, plan_settling};

/// How many calls of a store come from its index word on.
const LAST_CALLS: usize = 3;

/// What nobody sees happens before the holder's next step: its calls begin where they are due, or they end where they are made.
pub fn go_on(world: &mut World, side: u32)
    requires shaped { IsBuilt world.old }
    requires held { IsHeldFor world.old side }
    ensures shaped { IsBuilt world.new }
    ensures device { world.new.device ≡ world.old.device }
    ensures owner { world.new.memory.owner ≡ world.old.memory.owner }
    ensures on { (w : CoreWorld) (client : ℕ)
        → IsWorld w
        → ShowsWorld world.old w
        → w.memory.owner ≡ Held client side
        → client < clients_of w.memory
        → GoesOnUnseen w world.new }
{
    match world.memory.work {
        Work::NoWork => {}
        Work::Settling => go_on_settling(world),
        Work::Scanning { client, part } => go_on_scanning(world, client, part, side),
        Work::Calling => go_on_calling(world),
        Work::Filling { .. } => {}
        Work::Noting { .. } => {}
        Work::GivingUp { .. } => {}
    }
}

// Where the scan is over the round begins.
fn go_on_scanning(world: &mut World, client: u32, part: Part, side: u32)
    requires shaped { IsBuilt world.old }
    requires held { IsHeldFor world.old side }
    requires at { world.old.memory.work ≡ Work.Scanning client part }
    ensures shaped { IsBuilt world.new }
    ensures device { world.new.device ≡ world.old.device }
    ensures owner { world.new.memory.owner ≡ world.old.memory.owner }
    ensures on { (w : CoreWorld) (holder : ℕ)
        → IsWorld w
        → ShowsWorld world.old w
        → w.memory.owner ≡ Held holder side
        → holder < clients_of w.memory
        → GoesOnUnseen w world.new }
{
    let head = world.head;
    if client != head.clients {
        return;
    }
    match part {
        Part::AtNumber => go_on_scanned(world, side),
        Part::AtCode { .. } => {}
        Part::AtFirst { .. } => {}
        Part::AtSecond { .. } => {}
        Part::AtThird { .. } => {}
    }
}

fn go_on_scanned(world: &mut World, side: u32)
    requires shaped { IsBuilt world.old }
    requires held { IsHeldFor world.old side }
    requires at { world.old.memory.work ≡ Work.Scanning world.old.head.clients Part.AtNumber }
    ensures shaped { IsBuilt world.new }
    ensures device { world.new.device ≡ world.old.device }
    ensures owner { world.new.memory.owner ≡ world.old.memory.owner }
    ensures on { (w : CoreWorld) (holder : ℕ)
        → IsWorld w
        → ShowsWorld world.old w
        → w.memory.owner ≡ Held holder side
        → holder < clients_of w.memory
        → GoesOnUnseen w world.new }
{
    if world.calls.going {
        return;
    }
    begin_round(world, side);
}

fn go_on_settling(world: &mut World)
    requires { IsBuilt world.old }
    ensures shaped { IsBuilt world.new }
    ensures device { world.new.device ≡ world.old.device }
    ensures owner { world.new.memory.owner ≡ world.old.memory.owner }
    ensures on { (w : CoreWorld) (client side : ℕ)
        → IsWorld w
        → ShowsWorld world.old w
        → w.memory.owner ≡ Held client side
        → client < clients_of w.memory
        → w.memory.work ≡ Settling
        → GoesOnUnseen w world.new }
{
    if !world.calls.going {
        let rounds = rounds_ahead(&world.memory);
        plan_settling(&mut world.calls.plan, &world.head, rounds);
        world.calls.begin();
        return;
    }
    if world.calls.are_left() {
        return;
    }
    world.calls.end();
    end_settling(&mut world.memory);
}

// A round was in doubt, and is recorded now; or none was.
fn end_settling(memory: &mut Memory)
    ensures { memory.new ≡ settled memory.old }
{
    match memory.ahead {
        Some(_) => record_round(memory),
        None => begin_scan(memory),
    }
}

fn begin_scan(memory: &mut Memory)
    ensures { memory.new ≡ begins_scan memory.old }
{
    memory.met = 0;
    memory.work = Work::Scanning {
        client: 0,
        part: Part::AtNumber,
    };
    memory.knowledge = Knowledge::Resting;
}

fn go_on_calling(world: &mut World)
    requires { IsBuilt world.old }
    ensures shaped { IsBuilt world.new }
    ensures device { world.new.device ≡ world.old.device }
    ensures owner { world.new.memory.owner ≡ world.old.memory.owner }
    ensures on { (w : CoreWorld) (client side : ℕ)
        → IsWorld w
        → ShowsWorld world.old w
        → w.memory.owner ≡ Held client side
        → client < clients_of w.memory
        → w.memory.work ≡ Calling
        → GoesOnUnseen w world.new }
{
    if !world.calls.going {
        return;
    }
    if world.calls.are_left() {
        return;
    }
    world.calls.end();
    record_round(&mut world.memory);
}

fn record_round(memory: &mut Memory)
    ensures { memory.new ≡ recorded memory.old }
{
    memory.work = Work::Filling { count: 0 };
    memory.knowledge = Knowledge::Recorded;
}

// How many rounds of each side there are with the one ahead.
fn rounds_ahead(memory: &Memory) -> Rounds
    ensures { result ≡ with_ahead memory.now.ahead memory.now.rounds }
{
    match memory.ahead {
        None => memory.rounds,
        Some(side) => memory.rounds.with(side),
    }
}

/// The next call of the device is made.
pub fn call(world: &mut World) -> Stepped
    requires shaped { IsBuilt world.old }
    requires room { HasRoom world.old }
    ensures shaped { IsBuilt world.new }
    ensures spare { LosesOneAtMost world.old world.new }
    ensures made { (w : CoreWorld) → ShowsWorld world.old w → IsCallable w.progress → (result ≡ Stepped.Went) × CallsNext w world.new }
{
    if world.calls.make(&mut world.device) {
        Stepped::Went
    } else {
        Stepped::Impossible
    }
}

/// The holder's next call of the device fails.
pub fn fail(world: &mut World, client: u32, side: u32, how: Leaves) -> Stepped
    requires shaped { IsBuilt world.old }
    requires room { HasRoom world.old }
    requires holds { world.old.memory.owner ≡ Owner.Held client side }
    ensures shaped { IsBuilt world.new }
    ensures spare { LosesOneAtMost world.old world.new }
    ensures moved { (w : CoreWorld)
        → IsWorld w
        → ShowsWorld world.old w
        → client < clients_of w.memory
        → IsDue w
        → MovesTo w (Event.Fail client how) world.new result }
{
    match world.memory.work {
        Work::NoWork => Stepped::Impossible,
        Work::Settling => fail_settling(world, client, side, how),
        Work::Scanning { .. } => Stepped::Impossible,
        Work::Calling => fail_calling(world, client, side, how),
        Work::Filling { .. } => Stepped::Impossible,
        Work::Noting { .. } => Stepped::Impossible,
        Work::GivingUp { .. } => Stepped::Impossible,
    }
}

fn fail_settling(world: &mut World, client: u32, side: u32, how: Leaves) -> Stepped
    requires shaped { IsBuilt world.old }
    requires room { HasRoom world.old }
    requires holds { world.old.memory.owner ≡ Owner.Held client side }
    requires at { world.old.memory.work ≡ Work.Settling }
    ensures shaped { IsBuilt world.new }
    ensures spare { LosesOneAtMost world.old world.new }
    ensures moved { (w : CoreWorld)
        → IsWorld w
        → ShowsWorld world.old w
        → client < clients_of w.memory
        → IsCallable w.progress
        → MovesTo w (Event.Fail client how) world.new result }
{
    let _ = client;
    let _ = side;
    if !world.calls.fail(&mut world.device, how) {
        return Stepped::Impossible;
    }
    note_failure(&mut world.memory);
    Stepped::Went
}

// Where a round's index word wasn't called, the round is dropped.
fn fail_calling(world: &mut World, client: u32, side: u32, how: Leaves) -> Stepped
    requires shaped { IsBuilt world.old }
    requires room { HasRoom world.old }
    requires holds { world.old.memory.owner ≡ Owner.Held client side }
    requires at { world.old.memory.work ≡ Work.Calling }
    ensures shaped { IsBuilt world.new }
    ensures spare { LosesOneAtMost world.old world.new }
    ensures moved { (w : CoreWorld)
        → IsWorld w
        → ShowsWorld world.old w
        → client < clients_of w.memory
        → IsCallable w.progress
        → MovesTo w (Event.Fail client how) world.new result }
{
    let _ = client;
    let _ = side;
    let left = world.calls.left();
    if !world.calls.fail(&mut world.device, how) {
        return Stepped::Impossible;
    }
    if left > LAST_CALLS {
        drop_round(&mut world.memory);
        return Stepped::Went;
    }
    note_failure(&mut world.memory);
    Stepped::Went
}

fn drop_round(memory: &mut Memory)
    ensures after { memory.new ≡ fails (drops memory.old) }
    ensures rose { Rose memory.old.count (counted memory.old.count) }
{
    memory.ahead = None;
    note_failure(memory);
}

// What is known after a call failed.
fn note_failure(memory: &mut Memory)
    ensures after { memory.new ≡ fails memory.old }
    ensures rose { Rose memory.old.count (counted memory.old.count) }
{
    let from = memory.count;
    let to = from.saturating_add(1);
    memory.count = to;
    memory.work = Work::Noting { from, to };
    memory.knowledge = Knowledge::Doubtful;
}
