//! Opening the file of a device, and making it where it is absent.
ghost use Rattle.std.specs.Prelude.{◌≡◌, ◌↔◌, IsOk};
ghost use Rattle.pb_pmem.specs.declared.line.TheConstants.{DEVICE_BYTES};

use crate::transfer::write_whole;
use pb_pmem::DEVICE_BYTES;
use std::fs::{Files, OpenFile, OpenOptions};
use std::io;
use std::io::ErrorKind;

/// How many zero bytes are written at once into a new file.
const ZEROS: usize = 4096;

/// The paths of a device: its file, the name under which that is made, and the folder of both.
#[derive(Clone, Copy)]
pub(crate) struct Paths<'a> {
    pub(crate) file: &'a str,
    pub(crate) beside: &'a str,
}

/// Opens the file for reading and writing, and makes it where it is absent.
///
/// Then the file and its name are on the disk, as they are read: what an earlier program left may not be yet.
/// A file of another length is an error, and is left as it is.
pub(crate) fn open_or_make<R: Files>(rt: &R, paths: &Paths<'_>) -> io::Result<R::File> {
    if paths.file.is_empty() {
        return Err(ErrorKind::NotFound.into());
    }
    let file = match open(rt, paths.file) {
        Err(error) if error.kind() == ErrorKind::NotFound => {
            make(rt, paths)?;
            open(rt, paths.file)?
        }
        opened => opened?,
    };
    check_length(file.metadata()?.len())?;
    file.sync_all()?;
    sync_folder(rt, folder_of(paths.file))?;
    Ok(file)
}

fn open<R: Files>(rt: &R, path: &str) -> io::Result<R::File> {
    OpenOptions::new().read(true).write(true).open(rt, path)
}

/// Whether a file of so many bytes is the file of a device.
fn check_length(bytes: u64) -> io::Result<()>
    ensures { IsOk result ↔ (bytes ≡ DEVICE_BYTES) }
{
    if bytes == DEVICE_BYTES {
        Ok(())
    } else {
        Err(ErrorKind::InvalidData.into())
    }
}

/// Makes the file under the name beside it, and then gives it its own name too, unless that is taken by now: at any time
/// there is none or the whole. The name beside it goes, and so does one that was left by a program that was killed. Where
/// it can't be removed that is no error: it does no harm, and where it is in the way the next making fails.
fn make<R: Files>(rt: &R, paths: &Paths<'_>) -> io::Result<()> {
    let _ = rt.remove_file(paths.beside);
    let made = make_beside(rt, paths.beside).and_then(|()| rt.hard_link(paths.beside, paths.file));
    let _ = rt.remove_file(paths.beside);
    made
}

fn make_beside<R: Files>(rt: &R, path: &str) -> io::Result<()> {
    let mut file = OpenOptions::new()
        .write(true)
        .create_new(true)
        .open(rt, path)?;
    let zeros = [0u8; ZEROS];
    for _ in 0..DEVICE_BYTES / ZEROS as u64 {
        write_whole(&mut file, &zeros)?;
    }
    file.sync_all()
}

fn sync_folder<R: Files>(rt: &R, folder: &str) -> io::Result<()> {
    std::fs::open(rt, folder)?.sync_all()
}

/// The folder that a path stands in.
fn folder_of(path: &str) -> &str {
    match path.rsplit_once('/') {
        Some(("", _)) => "/",
        Some((folder, _)) => folder,
        None => ".",
    }
}
