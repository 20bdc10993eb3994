/// How a call of the program ended.
#[derive(Clone, Copy, Debug, PartialEq, Eq)]
pub enum Status {
    /// All that was asked for was done.
    Done,
    /// Memory ran out before the first request. Nothing was printed.
    OutOfMemory,
    /// The words are no command. `usage` was printed.
    Usage,
    /// The source was refused. `long`, `many` or `line N` was printed.
    Refused,
    /// A read of the source failed. `read fault` was printed.
    ReadFault,
    /// A write to the sink failed. Some of the first bytes of the text may have left.
    WriteFault,
    /// A call of the device failed. `device fault` was printed, or the outcomes of a run in which a
    /// request is in doubt.
    DeviceFault,
    /// The device holds no region that can be used, or one where none was wanted. `none`,
    /// `damaged L` or `taken` was printed.
    Unusable,
    /// A client left out a number, or asked for another operation under a number that is kept. The
    /// outcomes were printed.
    Misnumbered,
}

impl Status {
    ghost use Rattle.std.specs.Prelude.{◌≡◌};
    ghost use Rattle.pb_broker.specs.Texts.{status_code};

    /// The exit status of the process.
    pub fn code(self) -> u8
        ensures { result ≡ status_code self }
    {
        match self {
            Status::Done => 0,
            Status::OutOfMemory => 1,
            Status::Usage => 2,
            Status::Refused => 3,
            Status::ReadFault => 4,
            Status::WriteFault => 5,
            Status::DeviceFault => 6,
            Status::Unusable => 7,
            Status::Misnumbered => 8,
        }
    }
}
