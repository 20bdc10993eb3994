ghost use Rattle.std.specs.Prelude.{◌≡◌, ◌≤◌, ℕ, List, Option, length, IfOk};
ghost use Rattle.std.specs.Io.KnownBytes.{ReadConsumes};
ghost use Rattle.pb_pmem.specs.Count.{HasCause};

/// A read of a source failed. The source's count of faults rose in that call.
#[derive(Clone, Copy, Debug, PartialEq, Eq)]
pub struct SourceFault;

/// Where bytes come from.
///
/// A contract sees the bytes that are left, where the source tells them, and its count of faults.
/// An answer Ok leaves the count as it was, and an error comes only where the count rose in that call.
pub trait Source {
    /// The bytes that reads will give from here on, where they are told.
    ghost rest: { Self → Option (List ℕ) };

    /// How often a read has failed.
    ghost fault_count: { Self → ℕ };

    /// Puts some of the next bytes at the start of `into`, and says how many. Zero for a nonempty `into` is the end.
    /// After an error nothing is known of `into`, and the bytes that are left are as before.
    fn read(&mut self, into: &mut [u8]) -> Result<usize, SourceFault>
        ensures bound { IfOk result (λ count. count ≤ length into.new) }
        ensures bytes { ReadConsumes (rest self.old) (rest self.new) result into.new }
        ensures cause { HasCause (fault_count self.old) (fault_count self.new) result };

    /// How often a read has failed. It stands still at its last value.
    fn faults(&self) -> u64
        ensures { result ≡ fault_count self.now };
}
