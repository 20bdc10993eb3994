//! The trait of devices, and how their calls fail.
ghost use Rattle.std.specs.Prelude.{◌≡◌, ◌+◌, ◌<◌, ◌≤◌, OnOk, OnErr};
ghost use Rattle.pb_pmem.specs.declared.log.LogOp.{LogOp};
ghost use Rattle.pb_pmem.specs.Device.{Device, Adds, Fails, Reads, IsNoOp, MayAdd, IsWhole, IsReplay};

use crate::line::{LINES, Line};

/// A call of a device failed. The device's count of faults rose in that call, or stood at its last value.
#[derive(Clone, Copy, Debug, PartialEq, Eq)]
pub struct PmemFault;

/// The count of a device's faults rose from one value to another in a call, or stood at its last value.
#[derive(Clone, Copy, Debug, PartialEq, Eq)]
pub struct DeviceFault {
    /// The count when the call began.
    pub from: u64,
    /// The count when the call returned.
    pub to: u64,
}

/// A device of [`LINES`] lines, as persistent memory is one.
///
/// A contract sees it as a `Device`: its base and its log where it tells them, its lines where it tells them, and its count of faults.
/// An answer Ok leaves the count as it was, and an error comes only where the count rose in that call, or stood at its
/// last value. The base never changes.
pub trait Pmem: Drop {
    /// What contracts see of the device.
    ghost seen: { Self → Device };

    /// Reads a line. After an error nothing is known of `into`, and the log is as before.
    fn read(&mut self, line: u32, into: &mut Line) -> Result<(), PmemFault>
        requires { line < LINES }
        ensures ok { OnOk result (Reads line into.new (seen self.old) (seen self.new)) }
        ensures err { OnErr result (Fails IsNoOp (seen self.old) (seen self.new)) };

    /// Writes a whole line. An error may have written any words into that line.
    fn write(&mut self, line: u32, from: &Line) -> Result<(), PmemFault>
        requires { line < LINES }
        ensures ok { OnOk result (Adds (LogOp.Whole line from.now) (seen self.old) (seen self.new)) }
        ensures err { OnErr result (Fails (MayAdd (LogOp.Whole line from.now)) (seen self.old) (seen self.new)) };

    /// Writes one word of a line. An error may have written it or not.
    fn set_word(&mut self, line: u32, word: u32, value: u64) -> Result<(), PmemFault>
        requires line { line < LINES }
        requires word { word < 8 }
        ensures ok { OnOk result (Adds (LogOp.Word line word value) (seen self.old) (seen self.new)) }
        ensures err { OnErr result (Fails (MayAdd (LogOp.Word line word value)) (seen self.old) (seen self.new)) };

    /// Gives lines to the device, so that the marks after it settle what was written to them. An error may have done so or not.
    fn write_back(&mut self, first: u32, count: u32) -> Result<(), PmemFault>
        requires { first + count ≤ LINES }
        ensures ok { OnOk result (Adds (LogOp.Back first count) (seen self.old) (seen self.new)) }
        ensures err { OnErr result (Fails (MayAdd (LogOp.Back first count)) (seen self.old) (seen self.new)) };

    /// Orders what was written back before it, before all that comes after it. It doesn't wait for the device.
    /// An error may have ordered it or not.
    fn fence(&mut self) -> Result<(), PmemFault>
        ensures ok { OnOk result (Adds LogOp.Fence (seen self.old) (seen self.new)) }
        ensures err { OnErr result (Fails (MayAdd LogOp.Fence) (seen self.old) (seen self.new)) };

    /// A fence, and then waits until the device has settled what was written back before it.
    /// An error may have left a fence, a sync or nothing.
    fn sync(&mut self) -> Result<(), PmemFault>
        ensures ok { OnOk result (Adds LogOp.Sync (seen self.old) (seen self.new)) }
        ensures err { OnErr result (Fails (MayAdd LogOp.Sync) (seen self.old) (seen self.new)) };

    /// How often a call has failed. It stands still at its last value.
    fn faults(&self) -> u64
        ensures { result ≡ (seen self.now).faults };

    /// The lines that are told are all lines of the device.
    ghost is_whole: { (device : Self) → IsWhole (seen device) };

    /// Where the log is told, the lines are told and are the base with the log applied.
    ghost is_replay: { (device : Self) → IsReplay (seen device) };
}
