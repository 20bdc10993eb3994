//! Whole pieces in and out of a file, in as many calls as it wants.
ghost use Rattle.std.specs.Prelude.{◌≡◌, ◌+◌, ◌≤◌, OnOk, length};
ghost use Rattle.std.specs.Io.KnownBytes.{Appends, Consumes};

use std::io;
use std::io::{ErrorKind, Read, Write};

/// Writes all of the bytes. After an error some of the first of them are written.
pub(crate) fn write_whole<W: Write>(file: &mut W, bytes: &[u8]) -> io::Result<()>
    ensures { OnOk result (Appends (W.contents file.old) (W.contents file.new) bytes.now) }
{
    let mut sent = 0;
    while sent < bytes.len() {
        let count = file.write(bytes.split_at(sent).1)?;
        if count == 0 {
            return Err(ErrorKind::WriteZero.into());
        }
        sent += count;
    }
    Ok(())
}

/// Reads until `into` is full. A file that ends before is an error, and then `into` has some of its first bytes.
pub(crate) fn read_whole<R: Read>(file: &mut R, into: &mut [u8]) -> io::Result<()>
    ensures { OnOk result (Consumes (R.remaining file.old) (R.remaining file.new) into.new) }
{
    let mut len = 0;
    while len < into.len() {
        let count = file.read(&mut into[len..])?;
        if count == 0 {
            return Err(ErrorKind::UnexpectedEof.into());
        }
        len += count;
    }
    Ok(())
}
