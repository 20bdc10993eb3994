/// Why a report wasn't written whole.
#[derive(Clone, Copy, Debug, PartialEq, Eq)]
pub enum Unwritten {
    /// Memory ran out, and nothing was written.
    Memory,
    /// A call of the sink failed: some of the first bytes are written.
    Sink,
}
