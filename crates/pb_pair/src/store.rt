//! The operations of a store.
ghost use Rattle.std.specs.Prelude.{◌≡◌, not, ◌+◌, ◌<◌, ◌≤◌, ◌++◌, length, OnOk, OnErr};
ghost use Rattle.pb_pmem.specs.declared.line.TheConstants.{LINES};
ghost use Rattle.pb_pmem.specs.Operations.{IsFailedPrefix, Does, Stops};
ghost use Rattle.pb_layout.specs.RegionOps.{is_same, changes_from, writes_over, stage_over, commit_ops};
ghost use Rattle.pb_pair.specs.View.{if_known};

use pb_pmem::{Line, LogOp, Pmem, PmemFault, make, make_all, write_lines};

/// Gives lines to the device from a line on, and fences them. `spare` is what stands there, where that is known; it becomes these lines.
pub fn stage<P: Pmem>(
    device: &mut P,
    first: u32,
    known: bool,
    spare: &mut [Line],
    lines: &[Line],
) -> Result<(), PmemFault>
    requires room { first + length lines.now ≤ LINES }
    requires spare { length spare.old ≡ length lines.now }
    ensures ok { OnOk result
        (Does (stage_over first (if_known known spare.old) lines.now) (P.seen device.old) (P.seen device.new)) }
    ensures err { OnErr result
        (Stops (IsFailedPrefix (stage_over first (if_known known spare.old) lines.now)) (P.seen device.old) (P.seen device.new)) }
    ensures there { OnOk result (spare.new ≡ lines.now) }
    ensures long { length spare.new ≡ length lines.now }
{
    write_over(device, first, known, spare, lines)?;
    // The fence orders the record before the index word: the word can't be found without it.
    let count = lines.len() as u32;
    make_all(device, &[LogOp::Back { first, count }, LogOp::Fence])
}

/// Writes lines in rising order: those that differ from what is known to be there, or all.
fn write_over<P: Pmem>(
    device: &mut P,
    first: u32,
    known: bool,
    spare: &mut [Line],
    lines: &[Line],
) -> Result<(), PmemFault>
    requires room { first + length lines.now ≤ LINES }
    requires spare { length spare.old ≡ length lines.now }
    ensures ok { OnOk result
        (Does (writes_over first (if_known known spare.old) lines.now) (P.seen device.old) (P.seen device.new)) }
    ensures err { OnErr result
        (Stops (IsFailedPrefix (writes_over first (if_known known spare.old) lines.now)) (P.seen device.old) (P.seen device.new)) }
    ensures there { OnOk result (spare.new ≡ lines.now) }
    ensures long { length spare.new ≡ length lines.now }
{
    if known {
        write_changes(device, first, spare, lines)
    } else {
        spare.copy_from_slice(lines);
        write_lines(device, first, lines)
    }
}

/// Writes those lines that differ from the ones that are there, in rising order, on the device and in memory. So the record is passed
/// over once.
fn write_changes<P: Pmem>(
    device: &mut P,
    first: u32,
    spare: &mut [Line],
    lines: &[Line],
) -> Result<(), PmemFault>
    requires room { first + length lines.now ≤ LINES }
    requires spare { length spare.old ≡ length lines.now }
    ensures ok { OnOk result (Does (changes_from first spare.old lines.now) (P.seen device.old) (P.seen device.new)) }
    ensures err { OnErr result
        (Stops (IsFailedPrefix (changes_from first spare.old lines.now)) (P.seen device.old) (P.seen device.new)) }
    ensures there { OnOk result (spare.new ≡ lines.now) }
    ensures long { length spare.new ≡ length lines.now }
{
    for place in 0..lines.len() {
        let to = lines[place];
        if differs(&spare[place], &to) {
            let line = first + place as u32;
            make(device, &LogOp::Whole { line, to })?;
            spare[place] = to;
        }
    }
    Ok(())
}

fn differs(before: &Line, to: &Line) -> bool
    ensures { result ≡ not (is_same before.now to.now) }
{
    *before != *to
}

/// Switches a side to the record of this index, and waits until that is durable.
pub fn commit<P: Pmem>(device: &mut P, side: u32, index: u64) -> Result<(), PmemFault>
    requires { side < 2 }
    ensures ok { OnOk result (Does (commit_ops side index) (P.seen device.old) (P.seen device.new)) }
    ensures err { OnErr result (Stops (IsFailedPrefix (commit_ops side index)) (P.seen device.old) (P.seen device.new)) }
{
    make_all(
        device,
        &[
            LogOp::Word {
                line: 1 + side,
                word: 0,
                to: index,
            },
            LogOp::Back {
                first: 1 + side,
                count: 1,
            },
            LogOp::Sync,
        ],
    )
}
