//! The device that a world leaves.
ghost use Rattle.std.specs.Prelude.{◌≡◌, ◌<◌, IfOk};
ghost use Rattle.pb_pmem.specs.declared.line.TheConstants.{LINES};
ghost use Rattle.pb_pmem.specs.Contents.{contents};
ghost use Rattle.pb_core.specs.World.{World as CoreWorld};
ghost use Rattle.pb_layout.specs.Recovered.{Represents};
ghost use Rattle.pb_play.specs.Worlds.{IsShaped, ShowsWorld};
ghost use Rattle.pb_engines.specs.AnyEngine.{view_of};

use pb_engines::AnyEngine;
use pb_image::Sound;
use pb_play::World;
use pb_pmem::{LINES, Pmem};
use std::alloc::{AllocError, Global};

/// The region that a world leaves, opened. Nothing is damaged in it, so an error is want of memory.
pub fn open_region(alloc: Global, world: &World) -> Result<AnyEngine<Sound>, AllocError>
    requires { IsShaped world.now }
    ensures { (w : CoreWorld)
        → ShowsWorld world.now w
        → IfOk result (λ engine. Represents (contents w.tale.base w.tale.log) (view_of engine).standing) }
{
    let device = device_of(alloc, world)?;
    match AnyEngine::open(alloc, device) {
        Ok(engine) => Ok(engine),
        Err(_) => Err(AllocError),
    }
}

// A device with the lines that a world's device holds.
fn device_of(alloc: Global, world: &World) -> Result<Sound, AllocError>
    requires { IsShaped world.now }
    ensures { (w : CoreWorld)
        → ShowsWorld world.now w
        → IfOk result (λ device. device.lines ≡ contents w.tale.base w.tale.log) }
{
    let mut device = Sound::zero(alloc)?;
    for line in 0..LINES {
        let _ = device.write(line, &world.line(line));
    }
    Ok(device)
}
