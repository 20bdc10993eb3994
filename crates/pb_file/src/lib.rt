//! A device over a file: lines of 64 bytes, each at its place in the file.
#![tactic(auto)]

mod bytes;
mod file_dev;
mod lazy_file;
mod opening;
mod store;
mod transfer;

pub use file_dev::FileDev;
