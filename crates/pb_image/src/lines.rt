//! The lines that a device in memory begins with, and those that a crash leaves.
ghost use Rattle.std.specs.Prelude.{◌≡◌, length, replicate, IfOk, IsTrue};
ghost use Rattle.std.specs.List.{list_all};
ghost use Rattle.pb_pmem.specs.Lines.{zero_line};
ghost use Rattle.pb_crash.specs.Picked.{picked};
ghost use Rattle.pb_crash.specs.Within.{is_within};

use pb_crash::{filled, leave_image};
use pb_pmem::{LINES, Line, LogOp};
use std::alloc::{AllocError, Global};

/// The lines of a device of zeros.
pub fn zero_lines(alloc: Global) -> Result<Vec<Line>, AllocError>
    ensures { IfOk result (λ lines. lines.items ≡ replicate LINES zero_line) }
{
    vec![in alloc; filled(0); LINES as usize]
}

/// The image that a pick chooses among those that a crash at a cut may leave.
pub fn pick_image(
    alloc: Global,
    base: &[Line],
    log: &[LogOp],
    cut: u32,
    pick: u64,
) -> Result<Vec<Line>, AllocError>
    requires whole { length base.now ≡ LINES }
    requires within { IsTrue (list_all is_within log.now) }
    ensures { IfOk result (λ lines. lines.items ≡ picked base.now log.now cut pick) }
{
    let mut lines = Vec::from_slice(alloc, base)?;
    let mut backs = vec![in alloc; 0; LINES as usize]?;
    leave_image(&mut lines, log, cut, pick, &mut backs);
    Ok(lines)
}
