ghost use Rattle.std.specs.Prelude.{◌≡◌, ◌+◌, ◌<◌, ◌≤◌, length, take, MatchResult, IfOk, OnErr};
ghost use Rattle.std.specs.Io.KnownBytes.{Consumes, IsAtEnd};
ghost use Rattle.pb_pmem.specs.Count.{HasCause};
ghost use Rattle.pb_broker.specs.Serving.{HasTaken, ReadsAll, StopsReading};
ghost use Rattle.pb_broker.specs.Stream.{stream};

use crate::stop::Stop;
use pb_io::{Source, SourceFault};
use std::alloc::{AllocError, Global};

/// The most bytes that a source may have.
pub const SOURCE_LIMIT: usize = 4194304;

/// Reads a source to its end, or one byte past the limit.
pub fn read_all<S: Source>(alloc: Global, source: &mut S) -> Result<Vec<u8>, Stop>
    ensures { let read = stream (S.rest source.old) (S.rest source.new) (S.fault_count source.old) (S.fault_count source.new) in
        MatchResult result (λ bytes. ReadsAll read bytes.items) (StopsReading read) }
{
    let Ok(mut bytes) = zeros(alloc) else {
        return Err(Stop::Memory);
    };
    match fill(source, &mut bytes) {
        Ok(len) if len <= SOURCE_LIMIT => {
            bytes.truncate(len);
            Ok(bytes)
        }
        Ok(_) => Err(Stop::Long),
        Err(_) => Err(Stop::ReadFault),
    }
}

fn zeros(alloc: Global) -> Result<Vec<u8>, AllocError>
    ensures { IfOk result (λ bytes. length bytes.items ≡ SOURCE_LIMIT + 1) }
{
    vec![in alloc; 0u8; SOURCE_LIMIT + 1]
}

// Reads until the source ends or there is no more room, and says how many bytes came.
fn fill<S: Source>(source: &mut S, into: &mut [u8]) -> Result<usize, SourceFault>
    ensures bytes { IfOk result (λ len. (len ≤ length into.new) × Consumes (S.rest source.old) (S.rest source.new) (take len into.new)) }
    ensures end { IfOk result (λ len. len < length into.new → IsAtEnd (S.rest source.new)) }
    ensures some { OnErr result (HasTaken (S.rest source.old) (S.rest source.new) (length into.new)) }
    ensures cause { HasCause (S.fault_count source.old) (S.fault_count source.new) result }
{
    let mut len = 0;
    while len < into.len() {
        let count = source.read(&mut into[len..])?;
        if count == 0 {
            return Ok(len);
        }
        len += count;
    }
    Ok(len)
}
