//! The device that the program works over.
use pb_file::FileDev;
use pb_image::Image;
use pb_pmem::{Line, Pmem, PmemFault};
use std::fs::Files;

/// A device of either sort that the program can be given: one type, so that all below is made once.
#[derive(Drop)]
pub enum ProgramDevice<R: Files> {
    /// In memory, and gone at the end.
    Trial(Image),
    /// Over a file.
    File(FileDev<R>),
}

impl<R: Files + Drop> Pmem for ProgramDevice<R> {
    ghost use Rattle.pbcomb.specs.ProgramDevice.{program_seen, program_is_whole, program_is_replay};

    ghost seen = { λ device. program_seen device };

    ghost is_whole = { λ device. program_is_whole device };

    ghost is_replay = { λ device. program_is_replay device };

    fn read(&mut self, line: u32, into: &mut Line) -> Result<(), PmemFault> {
        match self {
            ProgramDevice::Trial(image) => image.read(line, into),
            ProgramDevice::File(file) => file.read(line, into),
        }
    }

    fn write(&mut self, line: u32, from: &Line) -> Result<(), PmemFault> {
        match self {
            ProgramDevice::Trial(image) => image.write(line, from),
            ProgramDevice::File(file) => file.write(line, from),
        }
    }

    fn set_word(&mut self, line: u32, word: u32, value: u64) -> Result<(), PmemFault> {
        match self {
            ProgramDevice::Trial(image) => image.set_word(line, word, value),
            ProgramDevice::File(file) => file.set_word(line, word, value),
        }
    }

    fn write_back(&mut self, first: u32, count: u32) -> Result<(), PmemFault> {
        match self {
            ProgramDevice::Trial(image) => image.write_back(first, count),
            ProgramDevice::File(file) => file.write_back(first, count),
        }
    }

    fn fence(&mut self) -> Result<(), PmemFault> {
        match self {
            ProgramDevice::Trial(image) => image.fence(),
            ProgramDevice::File(file) => file.fence(),
        }
    }

    fn sync(&mut self) -> Result<(), PmemFault> {
        match self {
            ProgramDevice::Trial(image) => image.sync(),
            ProgramDevice::File(file) => file.sync(),
        }
    }

    fn faults(&self) -> u64 {
        match self {
            ProgramDevice::Trial(image) => image.faults(),
            ProgramDevice::File(file) => file.faults(),
        }
    }
}
