//! A device that counts its operations, and a gate that looks at the count.
ghost use Rattle.std.specs.Prelude.{◌≡◌, ◌+◌, ◌<◌, ◌≤◌, OnOk, OnErr};
ghost use Rattle.pb_pmem.specs.declared.line.TheConstants.{LINES};

use pb_image::Image;
use pb_pmem::{Line, Pmem, PmemFault};
use pb_shared::Gate;
use std::sync::atomic::{AtomicU64, Ordering};

/// A device in memory that counts the calls that change it or order what a crash may leave.
#[derive(Drop)]
pub struct CountingDevice<'a> {
    pub image: Image,
    pub operations: &'a AtomicU64,
}

impl CountingDevice<'_> {
    fn count(&self) {
        self.operations.fetch_add(1, Ordering::SeqCst);
    }
}

impl Pmem for CountingDevice<'_> {
    ghost use Rattle.std.specs.Prelude.{refl};
    ghost use Rattle.std.proofs.Common.{◌∙◌};
    ghost use Rattle.pb_pmem.specs.declared.log.LogOp.{LogOp};
    ghost use Rattle.pb_pmem.specs.Device.{Adds, Fails, Reads, IsNoOp, IsWholeOf, Is, IsMark};
    ghost use Rattle.pb_pmem.proofs.Lines.{length-contents};
    ghost use Rattle.pb_image.specs.State.{seen_of};

    ghost seen = { λ device. seen_of device.image };

    ghost is_whole = { λ device. length-contents device.image.base device.image.log ∙ device.image.whole };

    ghost is_replay = { λ device. refl };

    fn read(&mut self, line: u32, into: &mut Line) -> Result<(), PmemFault>
        requires { line < LINES }
        ensures ok { OnOk result (Reads line into.new (seen_of self.old.image) (seen_of self.new.image)) }
        ensures err { OnErr result (Fails IsNoOp (seen_of self.old.image) (seen_of self.new.image)) }
    {
        self.image.read(line, into)
    }

    fn write(&mut self, line: u32, from: &Line) -> Result<(), PmemFault>
        requires { line < LINES }
        ensures ok { OnOk result (Adds (LogOp.Whole line from.now) (seen_of self.old.image) (seen_of self.new.image)) }
        ensures err { OnErr result (Fails (IsWholeOf line) (seen_of self.old.image) (seen_of self.new.image)) }
    {
        self.count();
        self.image.write(line, from)
    }

    fn set_word(&mut self, line: u32, word: u32, value: u64) -> Result<(), PmemFault>
        requires line { line < LINES }
        requires word { word < 8 }
        ensures ok { OnOk result (Adds (LogOp.Word line word value) (seen_of self.old.image) (seen_of self.new.image)) }
        ensures err { OnErr result (Fails (Is (LogOp.Word line word value)) (seen_of self.old.image) (seen_of self.new.image)) }
    {
        self.count();
        self.image.set_word(line, word, value)
    }

    fn write_back(&mut self, first: u32, count: u32) -> Result<(), PmemFault>
        requires { first + count ≤ LINES }
        ensures ok { OnOk result (Adds (LogOp.Back first count) (seen_of self.old.image) (seen_of self.new.image)) }
        ensures err { OnErr result (Fails (Is (LogOp.Back first count)) (seen_of self.old.image) (seen_of self.new.image)) }
    {
        self.count();
        self.image.write_back(first, count)
    }

    fn fence(&mut self) -> Result<(), PmemFault>
        ensures ok { OnOk result (Adds LogOp.Fence (seen_of self.old.image) (seen_of self.new.image)) }
        ensures err { OnErr result (Fails (Is LogOp.Fence) (seen_of self.old.image) (seen_of self.new.image)) }
    {
        self.count();
        self.image.fence()
    }

    fn sync(&mut self) -> Result<(), PmemFault>
        ensures ok { OnOk result (Adds LogOp.Sync (seen_of self.old.image) (seen_of self.new.image)) }
        ensures err { OnErr result (Fails IsMark (seen_of self.old.image) (seen_of self.new.image)) }
    {
        self.count();
        self.image.sync()
    }

    fn faults(&self) -> u64 {
        self.image.faults()
    }
}

/// A gate that counts its calls, and adds up how many operations there were when it was asked for request 1 of client 0, and for
/// request 2.
#[derive(Drop)]
pub struct LookingGate<'a> {
    pub operations: &'a AtomicU64,
    pub calls: AtomicU64,
    pub first: AtomicU64,
    pub second: AtomicU64,
}

impl Gate for LookingGate<'_> {
    fn before(&self, client: u32, number: u64) {
        self.calls.fetch_add(1, Ordering::SeqCst);
        let made = self.operations.load(Ordering::SeqCst);
        if client == 0 && number == 1 {
            self.first.fetch_add(made, Ordering::SeqCst);
        }
        if client == 0 && number == 2 {
            self.second.fetch_add(made, Ordering::SeqCst);
        }
    }

    fn busy(&self, _client: u32, _number: u64) {}
}
