//! The operations of formatting.
ghost use Rattle.std.specs.Prelude.{◌≡◌, ◌≢◌, ◌+◌, ◌<◌, ◌≤◌, [], ◌∷◌, ◌++◌, length, IfOk, IfErr, OnOk, OnErr};
ghost use Rattle.pb_pmem.specs.declared.log.LogOp.{LogOp};
ghost use Rattle.pb_pmem.specs.Lines.{zero_line};
ghost use Rattle.pb_pmem.specs.Operations.{IsFailedPrefix, writes_from, Does, Stops, IsFailedPrefixOfTwo};
ghost use Rattle.pb_object.specs.Standing.{side_count};
ghost use Rattle.pb_layout.specs.Shape.{IsHeader};
ghost use Rattle.pb_layout.specs.Header.{record_length};
ghost use Rattle.pb_layout.specs.Region.{record_place};
ghost use Rattle.pb_layout.specs.RegionOps.{header_words, prepare_ops, publish_ops, format_ops, front_ops, write_backs};
ghost use Rattle.pb_pair.specs.Format.{AreFirst, MakesRegion, IsFormatStop};

use crate::side::{Side, Sides};
use crate::why::Stop;
use pb_layout::{Header, MAGIC, count_line, header_line, record_len, record_line};
use pb_pmem::{Line, LogOp, Pmem, PmemFault, make_all, write_lines};
use std::alloc::Global;

/// Makes a region on a device that has none. Memory is taken before the first write.
pub fn make_region<P: Pmem>(
    alloc: Global,
    device: &mut P,
    head: &Header,
    first: &[Line],
    second: &[Line],
) -> Result<Sides, Stop>
    requires { AreFirst head.now first.now second.now }
    ensures ok { IfOk result (MakesRegion head.now first.now second.now (P.seen device.old) (P.seen device.new)) }
    ensures err { IfErr result (IsFormatStop head.now first.now second.now (P.seen device.old) (P.seen device.new)) }
{
    let mut line = Line::default();
    device.read(0, &mut line)?;
    if line.words[0] == MAGIC {
        return Err(Stop::WasTaken);
    }
    let first_side = Side::fresh(alloc, first, true)?;
    let second_side = Side::fresh(alloc, second, head.kind.sides() == 2)?;
    write_region(device, head, first, second)?;
    Ok(Sides {
        first: first_side,
        second: second_side,
    })
}

/// Writes a region: the first records of its sides, and then the magic.
fn write_region<P: Pmem>(
    device: &mut P,
    head: &Header,
    first: &[Line],
    second: &[Line],
) -> Result<(), PmemFault>
    requires { AreFirst head.now first.now second.now }
    ensures ok { OnOk result (Does (format_ops head.now first.now second.now) (P.seen device.old) (P.seen device.new)) }
    ensures err { OnErr result
        (Stops (IsFailedPrefixOfTwo (prepare_ops head.now first.now second.now) publish_ops) (P.seen device.old) (P.seen device.new)) }
{
    prepare(device, head, first, second)?;
    publish(device)
}

/// Writes all but the magic, gives it to the device and fences it.
fn prepare<P: Pmem>(
    device: &mut P,
    head: &Header,
    first: &[Line],
    second: &[Line],
) -> Result<(), PmemFault>
    requires { AreFirst head.now first.now second.now }
    ensures ok { OnOk result (Does (prepare_ops head.now first.now second.now) (P.seen device.old) (P.seen device.new)) }
    ensures err { OnErr result
        (Stops (IsFailedPrefix (prepare_ops head.now first.now second.now)) (P.seen device.old) (P.seen device.new)) }
{
    write_lines(device, record_line(head, 0, 0), first)?;
    write_second(device, head, second)?;
    write_front(device, head)?;
    give(device, head)
}

/// Writes the first record of the second side, where there is one.
fn write_second<P: Pmem>(device: &mut P, head: &Header, second: &[Line]) -> Result<(), PmemFault>
    requires valid { IsHeader head.now }
    requires long { 1 < side_count head.now.kind → length second.now ≡ record_length head.now }
    requires no_second { side_count head.now.kind ≡ 1 → second.now ≡ [] }
    ensures ok { OnOk result
        (Does (writes_from (record_place head.now 1 0) second.now) (P.seen device.old) (P.seen device.new)) }
    ensures err { OnErr result
        (Stops (IsFailedPrefix (writes_from (record_place head.now 1 0) second.now)) (P.seen device.old) (P.seen device.new)) }
{
    if head.kind.sides() == 2 {
        write_lines(device, record_line(head, 1, 0), second)
    } else {
        Ok(())
    }
}

/// Writes the round numbers of the sides, and the header without its magic.
fn write_front<P: Pmem>(device: &mut P, head: &Header) -> Result<(), PmemFault>
    requires { IsHeader head.now }
    ensures ok { OnOk result
        (Does (front_ops head.now) (P.seen device.old) (P.seen device.new)) }
    ensures err { OnErr result
        (Stops (IsFailedPrefix (front_ops head.now)) (P.seen device.old) (P.seen device.new)) }
{
    let to = count_line(0);
    let line = header_line(head);
    make_all(
        device,
        &[
            LogOp::Whole { line: 1, to },
            LogOp::Whole { line: 2, to },
            header_word(1, line.words[1]),
            header_word(2, line.words[2]),
            header_word(3, line.words[3]),
            header_word(4, line.words[4]),
            header_word(5, line.words[5]),
            header_word(6, line.words[6]),
            header_word(7, line.words[7]),
        ],
    )
}

fn header_word(word: u32, to: u64) -> LogOp
    ensures { result ≡ LogOp.Word 0 word to }
{
    LogOp::Word { line: 0, word, to }
}

/// Gives the front and the first records to the device, and orders them before all that follows.
fn give<P: Pmem>(device: &mut P, head: &Header) -> Result<(), PmemFault>
    requires { IsHeader head.now }
    ensures ok { OnOk result (Does (write_backs head.now) (P.seen device.old) (P.seen device.new)) }
    ensures err { OnErr result (Stops (IsFailedPrefix (write_backs head.now)) (P.seen device.old) (P.seen device.new)) }
{
    let front = LogOp::Back { first: 0, count: 3 };
    let first = back_of_record(head, 0);
    if head.kind.sides() == 2 {
        make_all(
            device,
            &[front, first, back_of_record(head, 1), LogOp::Fence],
        )
    } else {
        make_all(device, &[front, first, LogOp::Fence])
    }
}

fn back_of_record(head: &Header, side: u32) -> LogOp
    requires valid { IsHeader head.now }
    requires here { side < side_count head.now.kind }
    ensures { result ≡ LogOp.Back (record_place head.now side 0) (record_length head.now) }
{
    LogOp::Back {
        first: record_line(head, side, 0),
        count: record_len(head),
    }
}

/// Writes the magic, and waits until it is durable.
fn publish<P: Pmem>(device: &mut P) -> Result<(), PmemFault>
    ensures ok { OnOk result (Does publish_ops (P.seen device.old) (P.seen device.new)) }
    ensures err { OnErr result (Stops (IsFailedPrefix publish_ops) (P.seen device.old) (P.seen device.new)) }
{
    make_all(
        device,
        &[
            LogOp::Word {
                line: 0,
                word: 0,
                to: MAGIC,
            },
            LogOp::Back { first: 0, count: 1 },
            LogOp::Sync,
        ],
    )
}
