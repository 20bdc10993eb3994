ghost use Rattle.std.specs.Prelude.{◌≡◌};
ghost use Rattle.pb_broker.specs.declared.stop.Stop.TheVariants.{Memory, DeviceFault};
ghost use Rattle.pb_broker.specs.Stops.{stop_of_script, stop_of_device};

use pb_pair::Why;
use pb_pmem::DeviceFault;
use pb_script::ScriptFault;
use std::alloc::{AllocError, AllocFailed};

/// Why a call of the program ends before its work is done. No request was applied.
#[derive(Clone, Copy, Debug, PartialEq, Eq)]
pub enum Stop {
    /// Memory ran out.
    Memory,
    /// The words are no command.
    Usage,
    /// A read of the source failed.
    ReadFault,
    /// The source has too many bytes.
    Long,
    /// The source has too many request lines.
    Many,
    /// The line of the source with this number, counted from 1, is refused.
    Line(u32),
    /// A call of the device failed.
    DeviceFault,
    /// The device that was to be formatted has a region.
    Taken,
    /// The device has no region.
    NoRegion,
    /// The device's region is damaged, and this is the first of its lines that the format refuses.
    Damaged(u32),
}

impl From<AllocError> for Stop {
    ghost from_gives = { λ _ stop. stop ≡ Memory };

    fn from(_: AllocError) -> Self {
        Stop::Memory
    }
}

impl<T: Drop> From<AllocFailed<T>> for Stop {
    ghost from_gives = { λ _ stop. stop ≡ Memory };

    fn from(_: AllocFailed<T>) -> Self {
        Stop::Memory
    }
}

impl From<DeviceFault> for Stop {
    ghost from_gives = { λ _ stop. stop ≡ DeviceFault };

    fn from(_: DeviceFault) -> Self {
        Stop::DeviceFault
    }
}

impl From<ScriptFault> for Stop {
    ghost from_gives = { λ fault stop. stop ≡ stop_of_script fault };

    fn from(fault: ScriptFault) -> Self {
        match fault {
            ScriptFault::Memory => Stop::Memory,
            ScriptFault::Many => Stop::Many,
            ScriptFault::Line { number } => Stop::Line(number),
        }
    }
}

impl Stop {
    /// Why a region was refused.
    pub fn of_device(why: &Why) -> Stop
        ensures { result ≡ stop_of_device why.now }
    {
        match why {
            Why::Memory => Stop::Memory,
            Why::Device(_) => Stop::DeviceFault,
            Why::Taken => Stop::Taken,
            Why::NoRegion => Stop::NoRegion,
            Why::Damaged { line } => Stop::Damaged(*line),
        }
    }
}
