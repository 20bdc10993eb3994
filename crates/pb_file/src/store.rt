//! The lines that are held back for the file of a device.
ghost use Rattle.std.specs.Prelude.{◌≡◌, ◌+◌, ◌*◌, ◌⊎◌, ◌↔◌, true, OnOk, OnErr};
ghost use Rattle.std.specs.declared.io.traits.SeekFrom.TheVariants.{Start};
ghost use Rattle.pb_file.specs.Held.{HasGiven, HasHeld, HasLeft, IsNext, Joins, Keeps};

use crate::bytes::{LINE_BYTES, bytes_of, words_of};
use crate::lazy_file::LazyFile;
use crate::transfer::{read_whole, write_whole};
use arrayvec::ArrayVec;
use pb_pmem::Line;
use std::alloc::AllocError;
use std::fs::{Files, OpenFile};
use std::io;
use std::io::{Seek, SeekFrom};

/// How many bytes of adjacent lines are held back at most: 64 lines.
const HELD_BYTES: usize = 4096;

/// A file of lines, which is opened by the first call that needs it.
///
/// Adjacent lines are held back and leave in one write call. They leave before anything else is done with the file, and
/// are let go only where all of them left: where a call fails before, the next one writes the same lines again.
///
/// Their bytes have a place of their own in memory, so that a store is small where it is passed on.
#[derive(Drop)]
pub(crate) struct Store<R: Files> {
    file: LazyFile<R>,
    first: u32,
    held: Box<ArrayVec<u8, HELD_BYTES>>,
}

impl<R: Files> Store<R> {
    /// A store that isn't opened yet.
    pub(crate) fn new(rt: &R, path: &str) -> Result<Store<R>, AllocError>
    where
        R: Clone + Drop + AllocGlobal,
    {
        let held = Box::new(rt.alloc(), ArrayVec::new())?;
        Ok(Store {
            file: LazyFile::new(rt, path)?,
            first: 0,
            held,
        })
    }

    /// Reads a line into `into`, which is as it was after an error.
    pub(crate) fn read(&mut self, line: u32, into: &mut Line) -> io::Result<()>
        ensures ok { OnOk result (HasLeft self.new) }
        ensures err { OnErr result (HasLeft self.new ⊎ Keeps self.old self.new) }
    {
        self.send()?;
        let mut bytes = [0; LINE_BYTES];
        let file = self.file.get()?;
        file.seek(place_of(line, 0))?;
        read_whole(file, &mut bytes)?;
        into.words = words_of(&bytes);
        Ok(())
    }

    /// Holds a line back, where it is the next one of those that are held back or the first. Else those leave before.
    pub(crate) fn write(&mut self, line: u32, from: &Line) -> io::Result<()>
        ensures ok { OnOk result (HasHeld R.File.contents self.old self.new line from.now) }
        ensures err { OnErr result (Keeps self.old self.new) }
    {
        self.file.get()?;
        let bytes = bytes_of(from);
        if self.joins(line) {
            let _ = self.held.try_extend_from_slice(bytes.as_slice());
            return Ok(());
        }
        self.send()?;
        self.first = line;
        let _ = self.held.try_extend_from_slice(bytes.as_slice());
        Ok(())
    }

    /// Writes a word at its place, behind the lines that are held back.
    pub(crate) fn set_word(&mut self, line: u32, word: u32, value: u64) -> io::Result<()>
        ensures ok { OnOk result (HasLeft self.new) }
        ensures err { OnErr result (HasLeft self.new ⊎ Keeps self.old self.new) }
    {
        self.send()?;
        let file = self.file.get()?;
        file.seek(place_of(line, word))?;
        write_whole(file, &value.to_le_bytes())
    }

    /// Lets the lines that are held back leave. After an error they are held back as they were.
    pub(crate) fn send(&mut self) -> io::Result<()>
        ensures ok { OnOk result (HasLeft self.new) }
        ensures given { OnOk result (HasGiven R.File.contents self.old self.new) }
        ensures err { OnErr result (Keeps self.old self.new) }
    {
        let file = self.file.get()?;
        if self.held.is_empty() {
            return Ok(());
        }
        file.seek(place_of(self.first, 0))?;
        write_whole(file, self.held.as_slice())?;
        self.held.clear();
        Ok(())
    }

    /// Lets the lines that are held back leave, and waits until the disk has the file's data.
    pub(crate) fn settle(&mut self) -> io::Result<()>
        ensures ok { OnOk result (HasLeft self.new) }
        ensures given { OnOk result (HasGiven R.File.contents self.old self.new) }
        ensures err { OnErr result (HasLeft self.new ⊎ Keeps self.old self.new) }
    {
        self.send()?;
        self.file.get()?.sync_data()
    }

    /// Whether a line comes next behind those that are held back, and there is room for it.
    fn joins(&self, line: u32) -> bool
        ensures { result ≡ true ↔ Joins self.now line }
    {
        self.is_next(line) && self.held.len() + LINE_BYTES <= HELD_BYTES
    }

    /// Whether a line comes next behind those that are held back, where there are any.
    fn is_next(&self, line: u32) -> bool
        ensures { result ≡ true ↔ IsNext self.now line }
    {
        let count = self.held.len() / LINE_BYTES;
        count > 0 && line.checked_sub(self.first) == Some(count as u32)
    }
}

/// Where a word of a line begins in the file.
fn place_of(line: u32, word: u32) -> SeekFrom
    ensures { result ≡ Start (line * 64 + word * 8) }
{
    SeekFrom::Start(u64::from(line) * 64 + u64::from(word) * 8)
}
