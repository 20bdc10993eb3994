//! Numbers as words and scripts write them.
ghost use Rattle.std.specs.Prelude.{◌≡◌};
ghost use Rattle.pb_object.specs.Number.{number_of};

/// How many digits a number may have, leading zeros among them.
const MOST_DIGITS: usize = 20;

/// The number that a text writes: one to twenty decimal digits, leading zeros accepted, whose value is at most 2^64 - 1.
/// None for any other text.
pub fn parse_number(text: &[u8]) -> Option<u64>
    ensures { result ≡ number_of text.now }
{
    if text.is_empty() || text.len() > MOST_DIGITS {
        return None;
    }
    let mut value: u64 = 0;
    for byte in text {
        if !byte.is_ascii_digit() {
            return None;
        }
        value = value.checked_mul(10)?.checked_add(u64::from(*byte - b'0'))?;
    }
    Some(value)
}
