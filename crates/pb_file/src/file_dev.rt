//! The device over a file.
ghost use Rattle.std.specs.Prelude.{◌≡◌, ◌+◌, ◌<◌, ◌≤◌, ◌↔◌, IfOk, IsOk, OnOk, OnErr};
ghost use Rattle.pb_pmem.specs.declared.log.LogOp.{LogOp};
ghost use Rattle.pb_pmem.specs.Count.{HasCause};
ghost use Rattle.pb_pmem.specs.Device.{Adds, Fails, Reads, IsNoOp, MayAdd};
ghost use Rattle.pb_file.specs.Held.{HasGiven, Holds, Sends};
ghost use Rattle.pb_file.specs.Seen.{CountsOnce, file_faults, file_seen, file_store};

use crate::store::Store;
use pb_pmem::{LINES, Line, Pmem, PmemFault};
use std::alloc::AllocError;
use std::fs::Files;
use std::io;

/// A device over a file of 131,072 bytes: each line is 64 bytes at its place, each word little-endian.
///
/// It tells contracts its count of faults alone, and nothing of what it holds. The first call opens the file. It makes it
/// of zero bytes where it is absent, under its name with `.being-made` behind it, and gives it its own name when the disk
/// has the whole. A file of another length fails that call and is left as it is. While the file can't be opened each call
/// tries again. Every call that meets a failing call of the file raises the count of faults and answers [`PmemFault`].
/// Only that the other name can't be removed, or isn't there, is no fault.
///
/// Up to 64 adjacent lines are held back, and leave in one write call: before `read`, `set_word`, `write_back`, `fence`
/// and `sync`, and before a line that isn't the next one. Where they can't leave, that call fails, and the next one
/// tries the same lines again. Lines that are held back when the device is dropped are lost, as a crash may lose a line
/// that wasn't written back.
///
/// One device at a time may stand over a file. Two at once, also in two programs, damage what it holds.
#[derive(Drop)]
pub struct FileDev<R: Files> {
    store: Store<R>,
    faults: u64,
}

impl<R: Files> FileDev<R> {
    /// A device over the file at `path`. It takes memory for two paths and for its copy of `rt`, and touches no file.
    pub fn new(rt: &R, path: &str) -> Result<FileDev<R>, AllocError>
    where
        R: Clone + Drop + AllocGlobal,
        ensures { IfOk result (λ device. file_faults device ≡ 0) }
    {
        Ok(FileDev {
            store: Store::new(rt, path)?,
            faults: 0,
        })
    }
}

impl<R: Files + Drop> Pmem for FileDev<R> {
    ghost seen = { λ device. file_seen device };

    ghost is_whole = { λ _. tt };

    ghost is_replay = { λ _. tt };

    /// Reads the 64 bytes of a line. After an error `into` is as it was.
    fn read(&mut self, line: u32, into: &mut Line) -> Result<(), PmemFault>
        requires { line < LINES }
        ensures ok { OnOk result (Reads line into.new (file_seen self.old) (file_seen self.new)) }
        ensures err { OnErr result (Fails IsNoOp (file_seen self.old) (file_seen self.new)) }
        ensures counts { CountsOnce (file_faults self.old) (file_faults self.new) result }
        ensures held { Sends (file_store self.old) (file_store self.new) result }
    {
        let done = self.store.read(line, into);
        answer(&mut self.faults, done)
    }

    /// Holds a line back, behind those that it follows.
    fn write(&mut self, line: u32, from: &Line) -> Result<(), PmemFault>
        requires { line < LINES }
        ensures ok { OnOk result (Adds (LogOp.Whole line from.now) (file_seen self.old) (file_seen self.new)) }
        ensures err { OnErr result (Fails (MayAdd (LogOp.Whole line from.now)) (file_seen self.old) (file_seen self.new)) }
        ensures counts { CountsOnce (file_faults self.old) (file_faults self.new) result }
        ensures held { Holds R.File.contents (file_store self.old) (file_store self.new) line from.now result }
    {
        let done = self.store.write(line, from);
        answer(&mut self.faults, done)
    }

    /// Writes the eight bytes of a word.
    fn set_word(&mut self, line: u32, word: u32, value: u64) -> Result<(), PmemFault>
        requires line { line < LINES }
        requires word { word < 8 }
        ensures ok { OnOk result (Adds (LogOp.Word line word value) (file_seen self.old) (file_seen self.new)) }
        ensures err { OnErr result (Fails (MayAdd (LogOp.Word line word value)) (file_seen self.old) (file_seen self.new)) }
        ensures counts { CountsOnce (file_faults self.old) (file_faults self.new) result }
        ensures held { Sends (file_store self.old) (file_store self.new) result }
    {
        let done = self.store.set_word(line, word, value);
        answer(&mut self.faults, done)
    }

    /// Lets the lines that are held back leave, and waits for nothing.
    fn write_back(&mut self, _first: u32, _count: u32) -> Result<(), PmemFault>
        requires { _first + _count ≤ LINES }
        ensures ok { OnOk result (Adds (LogOp.Back _first _count) (file_seen self.old) (file_seen self.new)) }
        ensures err { OnErr result (Fails (MayAdd (LogOp.Back _first _count)) (file_seen self.old) (file_seen self.new)) }
        ensures counts { CountsOnce (file_faults self.old) (file_faults self.new) result }
        ensures held { Sends (file_store self.old) (file_store self.new) result }
        ensures given { OnOk result (HasGiven R.File.contents (file_store self.old) (file_store self.new)) }
    {
        let done = self.store.send();
        answer(&mut self.faults, done)
    }

    /// Waits until the disk has what was written: a file knows no order that is less than that.
    fn fence(&mut self) -> Result<(), PmemFault>
        ensures ok { OnOk result (Adds LogOp.Fence (file_seen self.old) (file_seen self.new)) }
        ensures err { OnErr result (Fails (MayAdd LogOp.Fence) (file_seen self.old) (file_seen self.new)) }
        ensures counts { CountsOnce (file_faults self.old) (file_faults self.new) result }
        ensures held { Sends (file_store self.old) (file_store self.new) result }
        ensures given { OnOk result (HasGiven R.File.contents (file_store self.old) (file_store self.new)) }
    {
        let done = self.store.settle();
        answer(&mut self.faults, done)
    }

    /// Waits until the disk has what was written.
    fn sync(&mut self) -> Result<(), PmemFault>
        ensures ok { OnOk result (Adds LogOp.Sync (file_seen self.old) (file_seen self.new)) }
        ensures err { OnErr result (Fails (MayAdd LogOp.Sync) (file_seen self.old) (file_seen self.new)) }
        ensures counts { CountsOnce (file_faults self.old) (file_faults self.new) result }
        ensures held { Sends (file_store self.old) (file_store self.new) result }
        ensures given { OnOk result (HasGiven R.File.contents (file_store self.old) (file_store self.new)) }
    {
        let done = self.store.settle();
        answer(&mut self.faults, done)
    }

    fn faults(&self) -> u64 {
        self.faults
    }
}

/// The answer of a call that came to this. An error counts as one fault more.
fn answer(faults: &mut u64, done: io::Result<()>) -> Result<(), PmemFault>
    ensures as_done { IsOk result ↔ IsOk done }
    ensures counts { CountsOnce faults.old faults.new result }
    ensures cause { HasCause faults.old faults.new result }
{
    match done {
        Ok(()) => Ok(()),
        Err(_) => {
            *faults = faults.saturating_add(1);
            Err(PmemFault)
        }
    }
}
