//! The calls of the device that are being made.
ghost use Rattle.std.specs.Prelude.{◌≡◌, ◌+◌, ◌-◌, ◌↔◌, ◌<◌, ◌≤◌, true, false, length, IfOk, IsTrue};
ghost use Rattle.pb_pmem.specs.Device.{Tale};
ghost use Rattle.pb_crash.specs.Leaves.{left_by};
ghost use Rattle.pb_layout.specs.declared.header.Header.{Header};
ghost use Rattle.pb_layout.specs.Header.{record_length};
ghost use Rattle.pb_core.specs.World.{CallProgress};

use crate::device::Device;
use pb_crash::{Leaves, left_by};
use pb_pmem::LogOp;
use std::alloc::{AllocError, Global};

/// The calls of the device that are being made.
#[derive(Drop)]
pub struct Calls {
    /// Whether some are.
    pub going: bool,
    /// All of them, in their order, and how many are made.
    pub plan: Vec<LogOp>,
    pub made: usize,
}

impl Calls {
    ghost use Rattle.pb_round_play.specs.Shape.{AreWithin};
    ghost use Rattle.pb_play.specs.Shape.{IsCalls, IsDevice};
    ghost use Rattle.pb_play.specs.Device.{ShowsDevice, MakesCall, FailsCall};
    ghost use Rattle.pb_core.specs.Play.{IsCallable};

    /// No calls, with memory for those of any round whose record has so many lines.
    pub fn fresh(alloc: Global, length: u32) -> Result<Self, AllocError>
        requires { length ≤ 2048 }
        ensures going { IfOk result (λ calls. calls.going ≡ false) }
        ensures shaped { (head : Header) → record_length head ≡ length → IfOk result (IsCalls head) }
    {
        // Two operations for each put of a round, a write for each line of a record, and the last five of a store.
        let most = 2 * 16 + length as usize + 5;
        Ok(Calls {
            going: false,
            plan: Vec::with_capacity(alloc, most)?,
            made: 0,
        })
    }

    /// Whether some are left to make.
    pub fn are_left(&self) -> bool
        ensures { IsTrue result ↔ (self.now.made < length self.now.plan.items) }
    {
        self.made < self.plan.len()
    }

    /// How many.
    pub fn left(&self) -> usize
        ensures { result ≡ length self.now.plan.items - self.now.made }
    {
        self.plan.len().saturating_sub(self.made)
    }

    /// The planned calls begin.
    pub fn begin(&mut self)
        ensures { self.new ≡ record self.old { going = true; made = 0 } }
    {
        self.going = true;
        self.made = 0;
    }

    /// They end.
    pub fn end(&mut self)
        ensures { self.new ≡ record self.old { going = false } }
    {
        self.going = false;
    }

    /// The next one is made, and the answer is true. Where none is due nothing happens.
    pub fn make(&mut self, device: &mut Device) -> bool
        requires device { IsDevice device.old }
        requires within { AreWithin self.old.plan.items }
        requires room { length device.old.log.items < device.old.room }
        ensures device { IsDevice device.new }
        ensures shaped { (head : Header) → IsCalls head self.old → IsCalls head self.new }
        ensures spare { length device.new.log.items ≤ length device.old.log.items + 1 }
        ensures room { device.new.room ≡ device.old.room }
        ensures made { (tale : Tale) (progress : CallProgress)
            → ShowsDevice self.old device.old tale progress
            → IsCallable progress
            → (result ≡ true) × MakesCall tale progress self.new device.new }
    {
        if !self.going || self.made >= self.plan.len() {
            return false;
        }
        device.add(Some(self.plan[self.made]));
        self.made += 1;
        true
    }

    /// The next one fails, and the answer is true. Where none is due nothing happens.
    pub fn fail(&mut self, device: &mut Device, how: Leaves) -> bool
        requires device { IsDevice device.old }
        requires within { AreWithin self.old.plan.items }
        requires room { length device.old.log.items < device.old.room }
        ensures device { IsDevice device.new }
        ensures shaped { (head : Header) → IsCalls head self.old → IsCalls head self.new }
        ensures spare { length device.new.log.items ≤ length device.old.log.items + 1 }
        ensures room { device.new.room ≡ device.old.room }
        ensures failed { (tale : Tale) (progress : CallProgress)
            → ShowsDevice self.old device.old tale progress
            → IsCallable progress
            → (result ≡ true) × FailsCall how tale progress self.new device.new }
    {
        if !self.going || self.made >= self.plan.len() {
            return false;
        }
        device.add(left_by(how, self.plan[self.made]));
        self.going = false;
        true
    }
}
