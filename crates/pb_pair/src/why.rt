//! Why a call of a pair gives no pair.
ghost use Rattle.std.specs.Prelude.{◌≡◌};
ghost use Rattle.pb_pair.specs.declared.why.Stop.TheVariants.{NoMemory, Fault};
ghost use Rattle.pb_pair.specs.Why.{why_of};

use pb_pmem::{DeviceFault, Pmem, PmemFault};
use std::alloc::AllocError;

/// Why a device wasn't formatted or opened.
#[derive(Clone, Copy, Debug, PartialEq, Eq)]
pub enum Why {
    /// Memory ran out.
    Memory,
    /// A call of the device failed.
    Device(DeviceFault),
    /// The device that was to be formatted has a region.
    Taken,
    /// The device that was to be opened has no region.
    NoRegion,
    /// The first line of the region that the format refuses.
    Damaged { line: u32 },
}

/// What formatting and opening answer where they make no pair.
#[derive(Drop)]
pub struct Refused<P> {
    /// The device that the call was given.
    pub device: P,
    /// Why there is no pair.
    pub why: Why,
}

/// Where formatting or opening stopped, within the call: the same as [`Why`] but for the counts of a device that failed.
#[derive(Clone, Copy, Debug, PartialEq, Eq)]
pub enum Stop {
    NoMemory,
    Fault,
    WasTaken,
    WasEmpty,
    BadLine { line: u32 },
}

impl From<PmemFault> for Stop {
    ghost from_gives = { λ _ stop. stop ≡ Fault };

    fn from(_fault: PmemFault) -> Stop {
        Stop::Fault
    }
}

impl From<AllocError> for Stop {
    ghost from_gives = { λ _ stop. stop ≡ NoMemory };

    fn from(_error: AllocError) -> Stop {
        Stop::NoMemory
    }
}

/// Hands back the device of a call that stopped, with its count of faults at the call's entry.
pub fn refuse<P: Pmem>(device: P, from: u64, stop: Stop) -> Refused<P>
    ensures device { result.device ≡ device }
    ensures why { result.why ≡ why_of from (P.seen device).faults stop }
{
    let to = device.faults();
    let why = match stop {
        Stop::NoMemory => Why::Memory,
        Stop::Fault => Why::Device(DeviceFault { from, to }),
        Stop::WasTaken => Why::Taken,
        Stop::WasEmpty => Why::NoRegion,
        Stop::BadLine { line } => Why::Damaged { line },
    };
    Refused { device, why }
}
