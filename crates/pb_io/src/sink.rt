ghost use Rattle.std.specs.Prelude.{◌≡◌, ◌≤◌, ◌<◌, ℕ, List, Option, take, length, IfOk, OnErr};
ghost use Rattle.std.specs.Io.KnownBytes.{Appends, Keeps};
ghost use Rattle.pb_pmem.specs.Count.{HasCause};
ghost use Rattle.pb_io.specs.SinkBytes.{AppendsSome};

/// A call of a sink failed. The sink's count of faults rose in that call.
#[derive(Clone, Copy, Debug, PartialEq, Eq)]
pub struct SinkFault;

/// Where bytes go.
///
/// A contract sees the bytes that were written, where the sink tells them, and its count of faults.
/// An answer Ok leaves the count as it was, and an error comes only where the count rose in that call.
pub trait Sink {
    /// The bytes that the sink holds, where they are told.
    ghost bytes: { Self → Option (List ℕ) };

    /// How often a call has failed.
    ghost fault_count: { Self → ℕ };

    /// Writes some of the first bytes of `from`, and says how many: at least one, where there is one.
    /// An error may have written some of them or none.
    fn write(&mut self, from: &[u8]) -> Result<usize, SinkFault>
        ensures bound { IfOk result (λ count. count ≤ length from.now) }
        ensures some { IfOk result (λ count. 0 < length from.now → 0 < count) }
        ensures ok { IfOk result (λ count. Appends (bytes self.old) (bytes self.new) (take count from.now)) }
        ensures err { OnErr result (AppendsSome (bytes self.old) (bytes self.new) from.now) }
        ensures cause { HasCause (fault_count self.old) (fault_count self.new) result };

    /// Passes on what the sink may have kept back. The bytes that were written stay, whatever it answers.
    fn flush(&mut self) -> Result<(), SinkFault>
        ensures bytes { Keeps (bytes self.old) (bytes self.new) }
        ensures cause { HasCause (fault_count self.old) (fault_count self.new) result };

    /// How often a call has failed. It stands still at its last value.
    fn faults(&self) -> u64
        ensures { result ≡ fault_count self.now };
}
