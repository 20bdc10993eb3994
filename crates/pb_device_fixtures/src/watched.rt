//! A device that is watched.
ghost use Rattle.std.specs.Prelude.{◌≡◌, ◌+◌, ◌<◌, ◌≤◌, OnOk, OnErr};
ghost use Rattle.pb_pmem.specs.declared.line.TheConstants.{LINES};

use pb_image::{Call, Image};
use pb_pmem::{Line, Pmem, PmemFault};

/// Who watches a device.
pub trait Watch: Drop {
    /// A call begins that changes the device, or orders what a crash may leave.
    fn before(&mut self, call: Call);
}

/// A device in memory that says each call that isn't a read to who watches it, and then makes the call. It tells what the device in memory
/// tells.
#[derive(Drop)]
pub struct Watched<W: Watch> {
    pub image: Image,
    pub watch: W,
}

impl<W: Watch> Pmem for Watched<W> {
    ghost use Rattle.std.specs.Prelude.{refl};
    ghost use Rattle.std.proofs.Common.{◌∙◌};
    ghost use Rattle.pb_pmem.specs.declared.log.LogOp.{LogOp};
    ghost use Rattle.pb_pmem.specs.Device.{Adds, Fails, Reads, IsNoOp, IsWholeOf, Is, IsMark};
    ghost use Rattle.pb_pmem.proofs.Lines.{length-contents};
    ghost use Rattle.pb_image.specs.State.{seen_of};

    ghost seen = { λ device. seen_of device.image };

    ghost is_whole = { λ device. length-contents device.image.base device.image.log ∙ device.image.whole };

    ghost is_replay = { λ device. refl };

    fn read(&mut self, line: u32, into: &mut Line) -> Result<(), PmemFault>
        requires { line < LINES }
        ensures ok { OnOk result (Reads line into.new (seen_of self.old.image) (seen_of self.new.image)) }
        ensures err { OnErr result (Fails IsNoOp (seen_of self.old.image) (seen_of self.new.image)) }
    {
        self.image.read(line, into)
    }

    fn write(&mut self, line: u32, from: &Line) -> Result<(), PmemFault>
        requires { line < LINES }
        ensures ok { OnOk result (Adds (LogOp.Whole line from.now) (seen_of self.old.image) (seen_of self.new.image)) }
        ensures err { OnErr result (Fails (IsWholeOf line) (seen_of self.old.image) (seen_of self.new.image)) }
    {
        self.watch.before(Call::Write);
        self.image.write(line, from)
    }

    fn set_word(&mut self, line: u32, word: u32, value: u64) -> Result<(), PmemFault>
        requires line { line < LINES }
        requires word { word < 8 }
        ensures ok { OnOk result (Adds (LogOp.Word line word value) (seen_of self.old.image) (seen_of self.new.image)) }
        ensures err { OnErr result (Fails (Is (LogOp.Word line word value)) (seen_of self.old.image) (seen_of self.new.image)) }
    {
        self.watch.before(Call::SetWord);
        self.image.set_word(line, word, value)
    }

    fn write_back(&mut self, first: u32, count: u32) -> Result<(), PmemFault>
        requires { first + count ≤ LINES }
        ensures ok { OnOk result (Adds (LogOp.Back first count) (seen_of self.old.image) (seen_of self.new.image)) }
        ensures err { OnErr result (Fails (Is (LogOp.Back first count)) (seen_of self.old.image) (seen_of self.new.image)) }
    {
        self.watch.before(Call::WriteBack);
        self.image.write_back(first, count)
    }

    fn fence(&mut self) -> Result<(), PmemFault>
        ensures ok { OnOk result (Adds LogOp.Fence (seen_of self.old.image) (seen_of self.new.image)) }
        ensures err { OnErr result (Fails (Is LogOp.Fence) (seen_of self.old.image) (seen_of self.new.image)) }
    {
        self.watch.before(Call::Fence);
        self.image.fence()
    }

    fn sync(&mut self) -> Result<(), PmemFault>
        ensures ok { OnOk result (Adds LogOp.Sync (seen_of self.old.image) (seen_of self.new.image)) }
        ensures err { OnErr result (Fails IsMark (seen_of self.old.image) (seen_of self.new.image)) }
    {
        self.watch.before(Call::Sync);
        self.image.sync()
    }

    fn faults(&self) -> u64 {
        self.image.faults()
    }
}
