//! Numbers are written as a line.
ghost use Rattle.std.specs.Prelude.{◌≡◌, ◌++◌, codes, decimal, IfOk};

use itoa::Buffer;
use std::alloc::AllocError;

/// Writes a line of these numbers, each with a blank before it.
pub fn push_numbers(text: &mut Vec<u8>, numbers: &[u64]) -> Result<(), AllocError> {
    for number in numbers {
        push_number(text, *number)?;
    }
    text.push(b'\n')?;
    Ok(())
}

fn push_number(text: &mut Vec<u8>, number: u64) -> Result<(), AllocError>
    ensures { IfOk result (λ _. text.new.items ≡ (text.old.items ++ codes " ") ++ decimal number) }
{
    text.push(b' ')?;
    let mut buffer = Buffer::new();
    text.extend_from_slice(buffer.format(number).as_bytes())
}
