//! Which calls of a device in memory are to fail.

use pb_crash::Leaves;

/// A kind of device call.
#[derive(Clone, Copy, Debug, PartialEq, Eq)]
pub enum Call {
    /// A read of a line.
    Read,
    /// A write of a whole line.
    Write,
    /// A write of one word.
    SetWord,
    /// Lines given to the device.
    WriteBack,
    /// A fence.
    Fence,
    /// A sync.
    Sync,
    /// A call of any kind.
    Any,
}

/// A call that is to fail. The first entry of a list that names a call decides, and a full log comes before the list.
#[derive(Clone, Copy, Debug, PartialEq, Eq)]
pub struct Fail {
    /// Of which kind it is.
    pub call: Call,
    /// Its number among the calls of that kind since the list was given.
    pub nth: u64,
    /// What it leaves.
    pub how: Leaves,
}
