//! Files that stand in for the system's: they note each call in its order, and fail the one that a test names.
use std::alloc::{Allocator, Global};
use std::cell::Cell;
use std::fs::{Files, Metadata, OpenFile, OpenOptions};
use std::io;
use std::io::{ErrorKind, Read, Seek, SeekFrom, Write};

/// The path of a device whose calls are noted.
pub const PATH: &str = "folder/region";

/// The length of a device's file.
pub const WHOLE: u64 = 131_072;

/// What a path stands for.
#[derive(Clone, Copy, PartialEq, Eq)]
pub enum Name {
    Region,
    Beside,
    Folder,
    Other,
}

/// A call that was made.
#[derive(Clone, Copy, PartialEq, Eq)]
pub enum Call {
    Open(Name),
    CreateNew(Name),
    Link(Name, Name),
    Remove(Name),
    Length(Name),
    Seek(u64),
    Read(usize),
    Write(usize),
    SyncData(Name),
    SyncAll(Name),
    Other,
}

/// How many calls are noted.
const NOTED: usize = 64;

/// The calls that were made, which of them is to fail, and whether the region is there and how long it is.
#[derive(Drop)]
pub struct Notes {
    calls: Cell<[Call; NOTED]>,
    count: Cell<usize>,
    failing: usize,
    is_there: Cell<bool>,
    length: Cell<u64>,
}

impl Notes {
    /// No calls yet, and a region of a length, or none. The call with a number fails, counted from 0.
    pub fn new(length: Option<u64>, failing: usize) -> Notes {
        Notes {
            calls: Cell::new([Call::Other; NOTED]),
            count: Cell::new(0),
            failing,
            is_there: Cell::new(length.is_some()),
            length: Cell::new(length.unwrap_or(0)),
        }
    }

    /// How many calls were made.
    pub fn count(&self) -> usize {
        self.count.get()
    }

    /// Whether these calls were made one after the other, the first of them after so many.
    pub fn have(&self, after: usize, wanted: &[Call]) -> bool {
        let calls = self.calls.get();
        let mut place = after;
        for call in wanted {
            if place >= NOTED || calls[place] != *call {
                return false;
            }
            place += 1;
        }
        place <= self.count.get()
    }

    fn note(&self, call: Call) -> io::Result<()> {
        let nth = self.count.get();
        let mut calls = self.calls.get();
        if nth < NOTED {
            calls[nth] = call;
        }
        self.calls.set(calls);
        self.count.set(nth.saturating_add(1));
        if nth == self.failing {
            return Err(ErrorKind::Other.into());
        }
        Ok(())
    }

    fn note_other<T>(&self) -> io::Result<T> {
        self.note(Call::Other)?;
        Err(ErrorKind::Unsupported.into())
    }
}

fn name_of(path: &str) -> Name {
    if path == PATH {
        Name::Region
    } else if path == "folder/region.being-made" {
        Name::Beside
    } else if path == "folder" {
        Name::Folder
    } else {
        Name::Other
    }
}

/// Files whose calls are noted.
#[derive(Clone, Copy)]
pub struct NotedFiles<'a> {
    alloc: Global,
    notes: &'a Notes,
}

impl<'a> NotedFiles<'a> {
    /// Files whose calls are noted there.
    pub fn new(alloc: Global, notes: &'a Notes) -> NotedFiles<'a> {
        NotedFiles { alloc, notes }
    }
}

impl<'a> Alloc for NotedFiles<'a> {
    type A = Global;

    fn alloc(&self) -> Global {
        self.alloc
    }
}

/// A file whose calls are noted.
#[derive(Drop)]
pub struct NotedFile<'a> {
    notes: &'a Notes,
    name: Name,
}

/// The names of a folder, of which there are none.
#[derive(Drop)]
pub struct NoNames;

impl Read for NoNames {
    fn read(&mut self, _buf: &mut [u8]) -> io::Result<usize> {
        Ok(0)
    }
}

impl<'a> Files for NotedFiles<'a> {
    type File = NotedFile<'a>;

    type Dir = NoNames;

    fn open_file(&self, how: &OpenOptions, path: &str) -> io::Result<NotedFile<'a>> {
        let name = name_of(path);
        let notes = self.notes;
        if how.asks_create_new() {
            notes.note(Call::CreateNew(name))?;
            notes.length.set(0);
        } else if how.asks_create() || how.asks_truncate() || how.asks_append() {
            return notes.note_other();
        } else {
            notes.note(Call::Open(name))?;
            if name == Name::Region && !notes.is_there.get() {
                return Err(ErrorKind::NotFound.into());
            }
        }
        Ok(NotedFile { notes, name })
    }

    fn open_dir(&self, _path: &str) -> io::Result<NoNames> {
        self.notes.note_other()
    }

    fn metadata(&self, _path: &str) -> io::Result<Metadata> {
        self.notes.note_other()
    }

    fn symlink_metadata(&self, _path: &str) -> io::Result<Metadata> {
        self.notes.note_other()
    }

    fn copy(&self, _from: &str, _to: &str) -> io::Result<u64> {
        self.notes.note_other()
    }

    fn rename(&self, _from: &str, _to: &str) -> io::Result<()> {
        self.notes.note_other()
    }

    fn remove_file(&self, path: &str) -> io::Result<()> {
        self.notes.note(Call::Remove(name_of(path)))
    }

    fn create_dir(&self, _path: &str) -> io::Result<()> {
        self.notes.note_other()
    }

    fn remove_dir(&self, _path: &str) -> io::Result<()> {
        self.notes.note_other()
    }

    fn remove_dir_all<B: Allocator>(&self, _alloc: B, _path: &str) -> io::Result<()> {
        self.notes.note_other()
    }

    fn hard_link(&self, original: &str, link: &str) -> io::Result<()> {
        let link = name_of(link);
        self.notes.note(Call::Link(name_of(original), link))?;
        if link == Name::Region {
            self.notes.is_there.set(true);
        }
        Ok(())
    }
}

impl<'a> OpenFile for NotedFile<'a> {
    fn metadata(&self) -> io::Result<Metadata> {
        self.notes.note(Call::Length(self.name))?;
        Ok(Metadata::of_file(self.notes.length.get()))
    }

    fn set_len(&self, _size: u64) -> io::Result<()> {
        self.notes.note_other()
    }

    fn sync_all(&self) -> io::Result<()> {
        self.notes.note(Call::SyncAll(self.name))
    }

    fn sync_data(&self) -> io::Result<()> {
        self.notes.note(Call::SyncData(self.name))
    }
}

impl<'a> Read for NotedFile<'a> {
    fn read(&mut self, buf: &mut [u8]) -> io::Result<usize> {
        self.notes.note(Call::Read(buf.len()))?;
        Ok(buf.len())
    }
}

impl<'a> Write for NotedFile<'a> {
    fn write(&mut self, buf: &[u8]) -> io::Result<usize> {
        let notes = self.notes;
        notes.note(Call::Write(buf.len()))?;
        if self.name == Name::Beside {
            notes
                .length
                .set(notes.length.get().saturating_add(buf.len() as u64));
        }
        Ok(buf.len())
    }

    fn flush(&mut self) -> io::Result<()> {
        self.notes.note_other()
    }
}

impl<'a> Seek for NotedFile<'a> {
    fn seek(&mut self, to: SeekFrom) -> io::Result<u64> {
        let SeekFrom::Start(place) = to else {
            return self.notes.note_other();
        };
        self.notes.note(Call::Seek(place))?;
        Ok(place)
    }
}
