//! A device that begins with the bytes of a source, and what a crash leaves of it.
ghost use Rattle.std.specs.Prelude.{◌≡◌, ◌<◌, ◌≤◌, length};
ghost use Rattle.pb_pmem.specs.declared.line.TheConstants.{LINES};
ghost use Rattle.pb_pmem.specs.Contents.{contents};
ghost use Rattle.pb_pmem.specs.Lines.{word_of};
ghost use Rattle.pb_memory_trial.specs.declared.trial.TheConstants.{SOURCE_LIMIT};

use crate::numbers::push_numbers;
use crate::trial::SOURCE_LIMIT;
use pb_image::Image;
use pb_pmem::{LINES, Line, Pmem};
use std::alloc::{AllocError, Global};

/// How many bytes a device has.
const BYTES: usize = 64 * LINES as usize;

/// How many operations it has room for.
const ROOM: u32 = 4;

/// What a crash fills a line with that it may leave or not.
const PICK: u64 = 7;

/// A device that begins with these bytes and zeros behind them. Line 1 was written and ordered, and a word of line 2 was set.
pub fn device_of(alloc: Global, bytes: &[u8]) -> Result<Image, AllocError>
    requires { length bytes.now ≤ SOURCE_LIMIT }
{
    let mut content = vec![in alloc; 0u8; BYTES]?;
    content[..bytes.len()].copy_from_slice(bytes);
    let mut device = Image::from_bytes(alloc, &content, ROOM)?;
    let written = Line { words: [5; 8] };
    let _ = device.write(1, &written);
    let _ = device.write_back(1, 1);
    let _ = device.fence();
    let _ = device.set_word(2, 0, 9);
    Ok(device)
}

/// Writes a line for each cut of a crash: the first words of the lines 0, 1 and 2 that it leaves of a device.
pub fn push_left(alloc: Global, text: &mut Vec<u8>, device: &Image) -> Result<(), AllocError> {
    let moment = device.log().len().min(ROOM as usize) as u32;
    let (least, greatest) = device.cuts(moment);
    for cut in least..=greatest {
        let left = device.after_crash(alloc, moment, cut, PICK, ROOM)?;
        push_numbers(
            text,
            &[
                first_word(&left, 0),
                first_word(&left, 1),
                first_word(&left, 2),
            ],
        )?;
    }
    Ok(())
}

fn first_word(device: &Image, line: u32) -> u64
    requires { line < LINES }
    ensures { result ≡ word_of (contents device.now.base device.now.log) line 0 }
{
    let [first, ..] = device.line(line).words;
    first
}
