//! The program: `pbcomb DEVICE WORDS`, a script on standard input, its outcomes on standard output.
#![tactic(auto)]

mod advice;
mod device;

use crate::advice::advice;
use crate::device::ProgramDevice;
use pb_broker::{Status, top};
use pb_file::FileDev;
use pb_image::Image;
use pb_io::{StdSink, StdSource};
use pb_pmem::Pmem;
use pb_shared::OpenGate;
use std::alloc::AllocError;
use std::process::ExitCode;
use std::rt::Env;
use std::sync::Wait;
use std::thread::Threads;
use std::{env, fs, io};

/// A folder that can be opened wherever the program runs, and neither read nor written as a file.
const FOLDER: &str = "/";

/// The word for a trial device in memory, which is gone at the end.
const TRIAL: &str = "-";

/// How many operations a trial device has room for.
const TRIAL_ROOM: u32 = 2_097_152;

fn main(rt: HostRuntime) -> ExitCode {
    // A standard stream that is closed leaves its number to the next file that is opened, and what is printed would go into it. So a folder
    // takes each of the three first: reading or writing it fails.
    let _input = fs::open(&rt, FOLDER);
    let _output = fs::open(&rt, FOLDER);
    let _error = fs::open(&rt, FOLDER);
    let status = match words(&rt) {
        Ok(words) => {
            let (place, command) = device_and_command(&words);
            match device_at(&rt, place) {
                Ok(device) => run_over(&rt, command, device),
                Err(_) => Status::OutOfMemory,
            }
        }
        Err(_) => Status::OutOfMemory,
    };
    if status != Status::Done {
        let _ = rt.eprintln(advice(status));
    }
    ExitCode::from(status.code())
}

/// The word that names the device, which is empty where there is none, and the words behind it.
fn device_and_command(words: &[String]) -> (&str, &[String]) {
    match words.split_first() {
        Some((place, command)) => (place.as_str(), command),
        None => ("", words),
    }
}

/// The device that the word names: a trial device, or the file of this path.
fn device_at(rt: &HostRuntime, place: &str) -> Result<ProgramDevice<HostRuntime>, AllocError> {
    if place == TRIAL {
        let image = Image::zero(rt.alloc(), TRIAL_ROOM)?;
        Ok(ProgramDevice::Trial(image))
    } else {
        let file = FileDev::new(rt, place)?;
        Ok(ProgramDevice::File(file))
    }
}

/// Runs the words over a device, from standard input to standard output.
fn run_over<R: Input + Print + AllocGlobal + Wait + Threads + Sync, P: Pmem + Send>(
    rt: &R,
    command: &[String],
    device: P,
) -> Status {
    let mut source = StdSource::new(rt.reader());
    let mut sink = StdSink::new(io::writer(rt));
    let done = top(
        rt,
        rt.alloc(),
        command,
        &mut source,
        &mut sink,
        device,
        &OpenGate,
    );
    done.status
}

/// The words after the program's name, and none where one of them isn't UTF-8.
fn words<R: Env + AllocGlobal>(rt: &R) -> Result<Vec<String>, AllocError> {
    match env::args(rt) {
        Ok(args) => args.skip(1).collect(rt.alloc()),
        Err(error) if error.kind() == io::ErrorKind::OutOfMemory => Err(AllocError),
        Err(_) => Ok(Vec::new(rt.alloc())),
    }
}
