//! The device of the core: its lines as a crash left them, the operations since then, and its lines now.
ghost use Rattle.std.specs.Prelude.{◌≡◌, ◌<◌, [], length, IfOk, option_to_list};
ghost use Rattle.pb_pmem.specs.declared.line.TheConstants.{LINES};

use pb_crash::add;
use pb_pmem::{LINES, Line, LogOp};
use std::alloc::{AllocError, Global};

/// A device with its log, in memory. Its base is what the last crash left.
#[derive(Drop)]
pub struct Device {
    pub base: Vec<Line>,
    pub log: Vec<LogOp>,
    pub lines: Vec<Line>,
    /// A place for each line, with which a crash works.
    pub backs: Vec<usize>,
    /// For how many operations the log has room.
    pub room: u32,
}

impl Device {
    ghost use Rattle.pb_round_play.specs.Shape.{AreWithin};
    ghost use Rattle.pb_play.specs.Shape.{IsDevice, AddsTo};

    /// A device that holds these lines, with room for so many operations.
    pub fn fresh(alloc: Global, base: Vec<Line>, room: u32) -> Result<Self, AllocError>
        requires { length base.items ≡ LINES }
        ensures shaped { IfOk result IsDevice }
        ensures base { IfOk result (λ device. device.base.items ≡ base.items) }
        ensures lines { IfOk result (λ device. device.lines.items ≡ base.items) }
        ensures log { IfOk result (λ device. device.log.items ≡ []) }
        ensures room { IfOk result (λ device. device.room ≡ room) }
    {
        let lines = Vec::from_slice(alloc, &base)?;
        let log = Vec::with_capacity(alloc, room as usize)?;
        let backs = vec![in alloc; 0; LINES as usize]?;
        Ok(Device {
            base,
            log,
            lines,
            backs,
            room,
        })
    }

    /// Does an operation, if there is one.
    pub fn add(&mut self, added: Option<LogOp>)
        requires device { IsDevice self.old }
        requires within { AreWithin (option_to_list added) }
        requires room { length self.old.log.items < self.old.room }
        ensures adds { AddsTo (option_to_list added) self.old self.new }
        ensures device { IsDevice self.new }
    {
        add(&mut self.lines, &mut self.log, added);
    }
}
