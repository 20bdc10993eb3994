//! A trial of the calls that take memory and that `pbcomb` doesn't make: reads a source from standard input, makes each of them, and
//! prints what they gave. Where one of them answers want of memory it prints nothing, and its status is 1.
#![tactic(auto)]

ghost use Rattle.std.specs.Prelude.{◌≤◌, length, IfOk};

mod crash;
mod numbers;
mod objects;
mod streams;
mod texts;
mod trial;

use crate::trial::{SOURCE_LIMIT, trial};
use std::alloc::{AllocError, Global};
use std::io;
use std::io::{Read, Write};
use std::process::ExitCode;

/// The status where memory ran out.
const OUT_OF_MEMORY: u8 = 1;

/// The status where a standard stream failed.
const STREAM_FAULT: u8 = 2;

fn main(rt: HostRuntime) -> ExitCode {
    let Ok(mut bytes) = zeros(rt.alloc()) else {
        return ExitCode::from(OUT_OF_MEMORY);
    };
    let Ok(len) = fill(&mut rt.reader(), &mut bytes) else {
        return ExitCode::from(STREAM_FAULT);
    };
    let Ok(text) = trial(rt.alloc(), &bytes[..len]) else {
        return ExitCode::from(OUT_OF_MEMORY);
    };
    match io::writer(&rt).write_all(&text) {
        Ok(()) => ExitCode::SUCCESS,
        Err(_) => ExitCode::from(STREAM_FAULT),
    }
}

fn zeros(alloc: Global) -> Result<Vec<u8>, AllocError>
    ensures { IfOk result (λ bytes. length bytes.items ≤ SOURCE_LIMIT) }
{
    vec![in alloc; 0u8; SOURCE_LIMIT]
}

// Reads until the source ends or there is no more room, and says how many bytes came.
fn fill<R: Read>(reader: &mut R, into: &mut [u8]) -> io::Result<usize>
    ensures { IfOk result (λ len. len ≤ length into.new) }
{
    let mut len = 0;
    while len < into.len() {
        let count = reader.read(&mut into[len..])?;
        if count == 0 {
            return Ok(len);
        }
        len += count;
    }
    Ok(len)
}
