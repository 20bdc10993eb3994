//! A source and a sink in memory.
ghost use Rattle.std.specs.Prelude.{◌≤◌, length, IfOk};

use pb_io::{ByteSink, ByteSource, Sink, Source};
use std::alloc::{AllocError, Global};

/// How many bytes are passed on.
const PIECE: u32 = 16;

/// The number of a call that fails, where it comes to so many.
const FAILS: u64 = 9;

/// The first bytes of a source that one read of it gives and one write into a sink takes.
pub fn passed_on(alloc: Global, bytes: &[u8]) -> Result<Vec<u8>, AllocError>
    ensures { IfOk result (λ passed. length passed.items ≤ PIECE) }
{
    let mut source = ByteSource::new(alloc, bytes, PIECE, &[FAILS])?;
    let mut sink = ByteSink::new(alloc, PIECE, PIECE, &[FAILS])?;
    let mut piece = [0u8; PIECE as usize];
    if let Ok(count) = source.read(&mut piece) {
        let _ = sink.write(&piece[..count]);
    }
    Vec::from_slice(alloc, sink.bytes())
}
