//! The pieces of a device, and how many there are.
ghost use Rattle.std.specs.Prelude.{◌≡◌, length, replicate};

/// How many lines a device has.
pub const LINES: u32 = 2048;

/// How many bytes a device has: 64 for each of its [`LINES`] lines.
pub const DEVICE_BYTES: u64 = 64 * LINES as u64;

/// Eight words, the piece in which a device is read and written back. As bytes it is 64 bytes, each word little-endian.
#[derive(Clone, Copy, Debug, PartialEq, Eq)]
pub struct Line {
    /// The words, in their order on the device.
    pub words: [u64; 8],
    pub ghost eight: { length words ≡ 8 },
}

impl Default for Line {
    ghost is_default = { λ line. line.words ≡ replicate 8 0 };

    fn default() -> Self {
        Line { words: [0; 8] }
    }
}
