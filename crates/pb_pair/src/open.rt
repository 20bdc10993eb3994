//! Reading a region, and judging what was read.
ghost use Rattle.std.specs.Prelude.{◌≡◌, ◌↔◌, ◌+◌, ◌<◌, ◌≤◌, length, IsTrue, IfOk, IfErr, OnOk, OnErr};
ghost use Rattle.pb_pmem.specs.declared.line.TheConstants.{LINES};
ghost use Rattle.pb_pmem.specs.Device.{Fails, IsNoOp};
ghost use Rattle.pb_object.specs.Standing.{side_count};
ghost use Rattle.pb_layout.specs.Damage.{IsRoundLine};
ghost use Rattle.pb_layout.specs.Shape.{IsHeader};
ghost use Rattle.pb_layout.specs.Header.{record_length, word};
ghost use Rattle.pb_layout.specs.Record.{count_line_of, IsRecord};
ghost use Rattle.pb_pair.specs.Reading.{HasRead, IsFront, IsFrontRefusal, IsRecordRefusal, HasReadSide, IsSideStop, HasReadSecond, IsSecondStop};

use crate::side::{Side, Sides};
use crate::why::Stop;
use pb_layout::{Header, LayoutFault, count_line, header_of, record_len, record_line, record_of};
use pb_object::Kind;
use pb_pmem::{Line, Pmem, PmemFault};
use std::alloc::Global;

/// What was read of a region: its header, and its sides with the records in use.
#[derive(Drop)]
pub struct Region {
    pub head: Header,
    pub sides: Sides,
}

impl Region {
    ghost use Rattle.std.specs.Prelude.{IfOk, IfErr};
    ghost use Rattle.pb_pair.specs.Open.{HasReadRegion, IsOpenStop};

    /// Reads a region, and judges it in the order of the format's checks. Writes nothing.
    pub fn read<P: Pmem>(alloc: Global, device: &mut P) -> Result<Region, Stop>
        ensures ok { IfOk result (λ region. HasReadRegion region (P.seen device.old) (P.seen device.new)) }
        ensures err { IfErr result (IsOpenStop (P.seen device.old) (P.seen device.new)) }
    {
        let mut front = [Line::default(); 3];
        read_lines(device, 0, &mut front)?;
        let head = judge_front(&front)?;
        let first = read_side(alloc, device, &head, 0, front[1].words[0])?;
        let second = read_second(alloc, device, &head, front[2].words[0])?;
        Ok(Region {
            head,
            sides: Sides { first, second },
        })
    }
}

/// Reads the record in use of the second side, where there is one.
fn read_second<P: Pmem>(
    alloc: Global,
    device: &mut P,
    head: &Header,
    round: u64,
) -> Result<Side, Stop>
    requires { IsHeader head.now }
    ensures ok { IfOk result (HasReadSecond head.now round (P.seen device.old) (P.seen device.new)) }
    ensures err { IfErr result (IsSecondStop head.now round (P.seen device.old) (P.seen device.new)) }
{
    if head.kind.sides() == 2 {
        read_side(alloc, device, head, 1, round)
    } else {
        let side = Side::fresh(alloc, &[], false)?;
        Ok(side)
    }
}

/// Reads the record in use of a side after so many rounds, and judges it. Takes memory for two records.
fn read_side<P: Pmem>(
    alloc: Global,
    device: &mut P,
    head: &Header,
    side: u32,
    round: u64,
) -> Result<Side, Stop>
    requires header { IsHeader head.now }
    requires here { side < side_count head.now.kind }
    ensures ok { IfOk result (λ read. HasReadSide head.now side round read (P.seen device.old) (P.seen device.new)) }
    ensures err { IfErr result (IsSideStop head.now side round (P.seen device.old) (P.seen device.new)) }
{
    let first = record_line(head, side, (round % 2) as u32);
    let mut lines = vec![in alloc; Line::default(); record_len(head) as usize]?;
    let spare = vec![in alloc; Line::default(); record_len(head) as usize]?;
    read_lines(device, first, &mut lines)?;
    judge_record(head, side, round, first, &lines)?;
    Ok(Side {
        round,
        lines,
        written: false,
        spare,
        spare_known: false,
    })
}

/// Reads lines, from a line of the device on. After an error nothing is known of `into`.
fn read_lines<P: Pmem>(device: &mut P, first: u32, into: &mut [Line]) -> Result<(), PmemFault>
    requires { first + length into.old ≤ LINES }
    ensures ok { OnOk result (HasRead first into.new (P.seen device.old) (P.seen device.new)) }
    ensures err { OnErr result (Fails IsNoOp (P.seen device.old) (P.seen device.new)) }
{
    for place in 0..into.len() {
        let mut line = Line::default();
        device.read(first + place as u32, &mut line)?;
        into[place] = line;
    }
    Ok(())
}

/// Judges the first three lines of a device: the header, and the lines that count the rounds of the two sides.
fn judge_front(front: &[Line]) -> Result<Header, Stop>
    requires { length front.now ≡ 3 }
    ensures ok { IfOk result (IsFront front.now) }
    ensures err { IfErr result (IsFrontRefusal front.now) }
{
    let head = match header_of(&front[0]) {
        Ok(head) => head,
        Err(LayoutFault::NoMagic) => return Err(Stop::WasEmpty),
        Err(LayoutFault::BadHeader { word: _ }) => return Err(Stop::BadLine { line: 0 }),
        Err(LayoutFault::BadRecord { line: _ }) => unreachable!(),
    };
    if !counts_rounds(head.kind, 0, &front[1]) {
        return Err(Stop::BadLine { line: 1 });
    }
    if !counts_rounds(head.kind, 1, &front[2]) {
        return Err(Stop::BadLine { line: 2 });
    }
    Ok(head)
}

/// Whether a line counts the rounds of a side: it is all zeros where there is no such side.
fn counts_rounds(kind: Kind, side: u32, line: &Line) -> bool
    requires { side < 2 }
    ensures { IsTrue result ↔ IsRoundLine kind side line.now }
{
    if side < kind.sides() {
        counts(line, line.words[0])
    } else {
        counts(line, 0)
    }
}

fn counts(line: &Line, count: u64) -> bool
    ensures { IsTrue result ↔ (line.now ≡ count_line_of count) }
{
    *line == count_line(count)
}

/// Judges the record in use of a side, which begins at a line of the device.
fn judge_record(
    head: &Header,
    side: u32,
    round: u64,
    first: u32,
    lines: &[Line],
) -> Result<(), Stop>
    requires header { IsHeader head.now }
    requires long { length lines.now ≡ record_length head.now }
    requires room { first + length lines.now ≤ LINES }
    ensures ok { OnOk result (IsRecord head.now side round lines.now) }
    ensures err { IfErr result (IsRecordRefusal head.now side round first lines.now) }
{
    match record_of(head, side, round, lines) {
        Ok(()) => Ok(()),
        Err(LayoutFault::BadRecord { line }) => Err(Stop::BadLine { line: first + line }),
        Err(LayoutFault::BadHeader { word: _ }) => unreachable!(),
        Err(LayoutFault::NoMagic) => unreachable!(),
    }
}
