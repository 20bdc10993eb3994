//! Opening the region again after a crash.
ghost use Rattle.std.specs.Prelude.{◌≡◌};
ghost use Rattle.pb_core.specs.DeviceParts.{IsWorld};
ghost use Rattle.pb_events.specs.declared.event.Event.{Event};
ghost use Rattle.pb_core.specs.Possible.{IsReopening};
ghost use Rattle.pb_core.specs.World.{World as CoreWorld};
ghost use Rattle.pb_play.specs.Seats.{with_region_open};
ghost use Rattle.pb_play.specs.Worlds.{IsBuilt, HasRoom, LosesOneAtMost, ShowsWorld, IsOpened, HasStepped};

use crate::between::call;
use crate::memory::Memory;
use crate::work::{Knowledge, Owner};
use crate::world::World;
use pb_crash::Leaves;
use pb_events::Stepped;
use pb_round_play::plan_settling;

/// The next part of opening the region again: reading it, or a call of settling.
pub fn reopen(world: &mut World) -> Stepped
    requires shaped { IsBuilt world.old }
    requires room { HasRoom world.old }
    ensures shaped { IsBuilt world.new }
    ensures spare { LosesOneAtMost world.old world.new }
    ensures stepped { (w : CoreWorld)
        → IsWorld w
        → ShowsWorld world.old w
        → IsReopening w
        → HasStepped w Event.Reopen world.new result }
{
    if world.calls.going {
        call(world)
    } else {
        let rounds = world.memory.rounds;
        plan_settling(&mut world.calls.plan, &world.head, rounds);
        world.calls.begin();
        Stepped::Went
    }
}

/// The next part of opening it again fails: reading is next.
pub fn fail_to_reopen(world: &mut World, how: Leaves) -> Stepped
    requires shaped { IsBuilt world.old }
    requires room { HasRoom world.old }
    ensures shaped { IsBuilt world.new }
    ensures spare { LosesOneAtMost world.old world.new }
    ensures stepped { (w : CoreWorld)
        → IsWorld w
        → ShowsWorld world.old w
        → IsReopening w
        → HasStepped w (Event.ReopenFail how) world.new result }
{
    if world.calls.going {
        let _ = world.calls.fail(&mut world.device, how);
    }
    Stepped::Went
}

/// Where all of that is done the region is open.
pub fn open(world: &mut World)
    requires { IsBuilt world.old }
    ensures shaped { IsBuilt world.new }
    ensures device { world.new.device ≡ world.old.device }
    ensures head { world.new.memory.head ≡ world.old.memory.head }
    ensures opened { (w : CoreWorld) → ShowsWorld world.old w → ¬ IsReopening w → IsOpened w world.new }
{
    match world.memory.owner {
        Owner::Free => {}
        Owner::Held { .. } => {}
        Owner::Closed => {
            world.calls.end();
            open_memory(&mut world.memory);
        }
    }
}

fn open_memory(memory: &mut Memory)
    ensures { memory.new ≡ with_region_open memory.old }
{
    memory.owner = Owner::Free;
    memory.knowledge = Knowledge::Resting;
}
