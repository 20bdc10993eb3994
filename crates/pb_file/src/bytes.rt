//! Lines and words as bytes, the lowest byte of a word first.
ghost use Rattle.std.specs.Prelude.{◌≡◌, ◌+◌, ◌≤◌, ◌∷◌, ◌++◌, [], length};
ghost use Rattle.std.specs.Int.{to_le_bytes, w64};
ghost use Rattle.pb_file.specs.Bytes.{line_bytes, word_at_byte};

use arrayvec::ArrayVec;
use pb_pmem::Line;

/// How many bytes a line has.
pub(crate) const LINE_BYTES: usize = 64;

/// The bytes of a line.
pub(crate) fn bytes_of(line: &Line) -> ArrayVec<u8, LINE_BYTES>
    ensures bytes { result.items ≡ line_bytes line.now }
    ensures len { length result.items ≡ 64 }
{
    let mut bytes = ArrayVec::new();
    for place in 0..8 {
        put_word(&mut bytes, line.words[place]);
    }
    bytes
}

// Puts a word's bytes behind those that are there.
fn put_word(bytes: &mut ArrayVec<u8, LINE_BYTES>, word: u64)
    requires { length bytes.old.items + 8 ≤ LINE_BYTES }
    ensures { bytes.new.items ≡ bytes.old.items ++ to_le_bytes w64 word }
{
    let _ = bytes.try_extend_from_slice(&word.to_le_bytes());
}

/// The words of a line from its bytes.
pub(crate) fn words_of(bytes: &[u8; 64]) -> [u64; 8]
    ensures { let word = word_at_byte bytes.now in
        result ≡ word 0 ∷ word 8 ∷ word 16 ∷ word 24 ∷ word 32 ∷ word 40 ∷ word 48 ∷ word 56 ∷ [] }
{
    [
        word_at(bytes, 0),
        word_at(bytes, 8),
        word_at(bytes, 16),
        word_at(bytes, 24),
        word_at(bytes, 32),
        word_at(bytes, 40),
        word_at(bytes, 48),
        word_at(bytes, 56),
    ]
}

// The word whose eight bytes begin at a place.
fn word_at(bytes: &[u8; 64], place: usize) -> u64
    requires { place + 8 ≤ 64 }
    ensures { result ≡ word_at_byte bytes.now place }
{
    let b = &bytes[place..place + 8];
    u64::from_le_bytes([b[0], b[1], b[2], b[3], b[4], b[5], b[6], b[7]])
}
