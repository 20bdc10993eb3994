ghost use Rattle.std.specs.Prelude.{◌≡◌};
ghost use Rattle.pb_pmem.specs.declared.log.LogOp.{LogOp};

use pb_pmem::{Line, LogOp};

/// The format's magic, as the bytes `PBCOMB01` spell it.
pub const MAGIC: u64 = 0x3130_424D_4F43_4250;

/// A write of a whole line.
pub fn whole(line: u32, words: [u64; 8]) -> LogOp {
    LogOp::Whole {
        line,
        to: Line { words },
    }
}

/// A write of one word.
pub fn word(line: u32, word: u32, to: u64) -> LogOp
    ensures { result ≡ LogOp.Word line word to }
{
    LogOp::Word { line, word, to }
}

/// Lines given to the device.
pub fn back(first: u32, count: u32) -> LogOp
    ensures { result ≡ LogOp.Back first count }
{
    LogOp::Back { first, count }
}

/// A write of zeros to a whole line.
pub fn zeros(line: u32) -> LogOp {
    whole(line, [0; 8])
}
