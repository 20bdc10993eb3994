//! A file that is opened by the first call that needs it.
ghost use Rattle.std.specs.Prelude.{◌≡◌, IfOk, IfSome};
ghost use Rattle.std.specs.Borrow.{sem};
ghost use Rattle.pb_file.specs.Lending.{LendsFile};

use crate::opening::{Paths, open_or_make};
use std::alloc::AllocError;
use std::fs::Files;
use std::io;
use std::io::ErrorKind;

/// What stands behind the name of a file while it is made.
const BESIDE: &str = ".being-made";

/// The file of a device, with what it takes to open it.
#[derive(Drop)]
pub(crate) struct LazyFile<R: Files> {
    rt: R,
    path: String,
    beside: String,
    opened: Option<R::File>,
}

impl<R: Files> LazyFile<R> {
    /// The file at a path, which isn't touched yet.
    pub(crate) fn new(rt: &R, path: &str) -> Result<LazyFile<R>, AllocError>
    where
        R: Clone + Drop + AllocGlobal,
    {
        let mut beside = path.to_string(rt.alloc())?;
        beside.push_str(BESIDE)?;
        Ok(LazyFile {
            rt: rt.clone()?,
            path: path.to_string(rt.alloc())?,
            beside,
            opened: None,
        })
    }

    /// The file, which is opened or made where it isn't open. After an error the next call tries again.
    pub(crate) fn get(&mut self) -> io::Result<&mut R::File>
        ensures* writes_back { sem 𝓛 (LendsFile R.row R.File.row R.Dir.row self.entry result) }
        ensures value { IfOk result (λ file. IfSome self.old.opened (λ was. file.now ≡ was)) }
    {
        if self.opened.is_none() {
            let paths = Paths {
                file: &self.path,
                beside: &self.beside,
            };
            self.opened = Some(open_or_make(&self.rt, &paths)?);
        }
        match &mut self.opened {
            Some(file) => Ok(file),
            None => Err(ErrorKind::NotFound.into()),
        }
    }
}
