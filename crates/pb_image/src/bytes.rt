//! Lines from bytes.
ghost use Rattle.std.specs.Prelude.{◌≡◌, ◌+◌, ◌*◌, ◌≤◌, length, IfOk};
ghost use Rattle.pb_image.specs.Bytes.{word_at_byte, line_at_byte, lines_of_bytes};

use pb_pmem::{LINES, Line};
use std::alloc::{AllocError, Global};

/// The word whose eight bytes begin at a place, the lowest byte first.
fn word_at(bytes: &[u8], place: usize) -> u64
    requires { place + 8 ≤ length bytes.now }
    ensures { result ≡ word_at_byte bytes.now place }
{
    let b = &bytes[place..place + 8];
    u64::from_le_bytes([b[0], b[1], b[2], b[3], b[4], b[5], b[6], b[7]])
}

/// The line whose 64 bytes begin at a place.
fn line_at(bytes: &[u8], place: usize) -> Line
    requires { place + 64 ≤ length bytes.now }
    ensures { result ≡ line_at_byte bytes.now place }
{
    Line {
        words: [
            word_at(bytes, place),
            word_at(bytes, place + 8),
            word_at(bytes, place + 16),
            word_at(bytes, place + 24),
            word_at(bytes, place + 32),
            word_at(bytes, place + 40),
            word_at(bytes, place + 48),
            word_at(bytes, place + 56),
        ],
    }
}

/// The lines of a device from its bytes.
pub fn lines_from(alloc: Global, bytes: &[u8]) -> Result<Vec<Line>, AllocError>
    requires { length bytes.now ≡ 64 * LINES }
    ensures { IfOk result (λ lines. lines.items ≡ lines_of_bytes LINES bytes.now) }
{
    let mut lines = Vec::with_capacity(alloc, LINES as usize)?;
    for i in 0..LINES as usize {
        lines.push(line_at(bytes, 64 * i))?;
    }
    Ok(lines)
}
