//! A pair: a device with two records and an index word for each side.
ghost use Rattle.std.specs.Prelude.{◌≡◌, ◌<◌, [], ◌∷◌, IfOk, IfErr, OnOk};
ghost use Rattle.pb_pair.specs.View.{HasForgotten};

use crate::cells;
use crate::format::make_region;
use crate::known::{Doubt, Known};
use crate::open::Region;
use crate::settle::{is_called, is_called_on, settle_rounds};
use crate::side::Sides;
use crate::why::{Refused, refuse};
use pb_layout::Header;
use pb_pmem::{DeviceFault, Line, Pmem};
use std::alloc::Global;
use std::marker::Model;

/// A device with a region: its header and, for each side, the round number and the record in use.
///
/// A contract sees it as a `PairView`. No call but `format` and `open` takes memory.
#[derive(Drop)]
pub struct Pair<P: Pmem> {
    device: P,
    head: Header,
    sides: Sides,
    known: Known,
    doubt: Option<Doubt>,
}

impl<P: Pmem> Model for Pair<P> {
    ghost use Rattle.pb_pair.specs.View.{PairView, IsPair, HasRoom, pair_view};

    ghost Value = { PairView };

    ghost view = { λ p. pair_view (P.seen p.device) p.head p.sides p.known p.doubt };

    ghost invariant = { λ p. IsPair (pair_view (P.seen p.device) p.head p.sides p.known p.doubt) × HasRoom p.sides };
}

impl<P: Pmem> Pair<P> {
    ghost use Rattle.std.specs.Prelude.{◌≡◌, ◌≢◌, ◌↔◌, ◌<◌, IfOk, IfErr, OnOk, OnErr, IfSome, IsTrue, Ok, None};
    ghost use Rattle.pb_pmem.specs.Lines.{line_at};
    ghost use Rattle.pb_pmem.specs.Operations.{IsFailedPrefix};
    ghost use Rattle.pb_object.specs.declared.kind.Kind.TheVariants.{Queue};
    ghost use Rattle.pb_object.specs.Standing.{side_count};
    ghost use Rattle.pb_layout.specs.Region.{cell_place};
    ghost use Rattle.pb_pair.specs.declared.known.Known.TheVariants.{Sure, Opened, Failed};
    ghost use Rattle.pb_pair.specs.Cells.{IsFree, IsNothing, HasPut};
    ghost use Rattle.pb_layout.specs.PutCell.{put_ops};
    ghost use Rattle.pb_pair.specs.Format.{AreFirst, IsFormatted, IsFormatRefusal};
    ghost use Rattle.pb_pair.specs.Open.{IsOpened, IsOpenRefusal};
    ghost use Rattle.pb_pair.specs.Safe.{FormatCovers, FailedFormatCovers, PutCovers, StoreCovers, FailedStoreCovers, SettleCovers, FailedSettleCovers};
    ghost use Rattle.pb_pair.specs.Settle.{IsSettled, settled_ops, was_called};
    ghost use Rattle.pb_pair.specs.Store.{IsNext, IsStored, IsFailedStore, HasFailedStore};
    ghost use Rattle.pb_pair.specs.View.{PairView, IsPair, HasFailed, round_of_side, lines_of};

    /// Makes a region on a device that has none, with these first records of its sides. The pair is sure.
    ///
    /// `first` is a record of round 0 of side 0, and `second` one of side 1 for a queue and empty otherwise. Memory is taken before the
    /// first write: `Memory` leaves the device as it was. `Taken` comes only where the device has a region, and no Ok does; it leaves it
    /// as it was. `Device` comes where a call of the device failed: where the log is told, a region that was there is as it was, and
    /// where there was none there still is none, or the whole one.
    pub fn format(
        alloc: Global,
        mut device: P,
        head: &Header,
        first: &[Line],
        second: &[Line],
    ) -> Result<Pair<P>, Refused<P>>
        requires { AreFirst head.now first.now second.now }
        ensures ok { IfOk result (IsFormatted head.now first.now second.now (P.seen device)) }
        ensures err { IfErr result
            (λ refused. IsFormatRefusal head.now first.now second.now (P.seen device) (P.seen refused.device) refused.why) }
        ensures safe { IfOk result (λ pair. FormatCovers head.now first.now second.now (P.seen device) pair.device) }
        ensures fails_safe { IfErr result
            (λ refused. FailedFormatCovers head.now first.now second.now (P.seen device) (P.seen refused.device)) }
    {
        let from = device.faults();
        match make_region(alloc, &mut device, head, first, second) {
            Ok(sides) => Ok(Pair {
                device,
                head: *head,
                sides,
                known: Known::Sure,
                doubt: None,
            }),
            Err(stop) => Err(refuse(device, from, stop)),
        }
    }

    /// Reads the region of a device, and writes nothing. The pair isn't sure until it is settled.
    ///
    /// Each refusal leaves the device's log as it was. `NoRegion` comes only where the first word isn't the magic, and `Damaged` with the
    /// first line that the format refuses before the object's lines; an Ok comes where neither is so. `Memory` and `Device` come where
    /// memory ran out or a read failed.
    pub fn open(alloc: Global, mut device: P) -> Result<Pair<P>, Refused<P>>
        ensures ok { IfOk result (IsOpened (P.seen device)) }
        ensures err { IfErr result
            (λ refused. IsOpenRefusal (P.seen device) (P.seen refused.device) refused.why) }
    {
        let from = device.faults();
        match Region::read(alloc, &mut device) {
            Ok(region) => Ok(Pair {
                device,
                head: region.head,
                sides: region.sides,
                known: Known::Opened,
                doubt: None,
            }),
            Err(stop) => Err(refuse(device, from, stop)),
        }
    }

    /// The header of the region.
    pub fn header(&self) -> Header
        ensures head { result ≡ self.now.head }
        ensures sound { IsPair self.now }
    {
        self.head
    }

    /// How many rounds of a side there were.
    pub fn round(&self, side: u32) -> u64
        requires { side < side_count self.now.head.kind }
        ensures { result ≡ round_of_side self.now side }
    {
        if side == 0 {
            self.sides.first.round
        } else {
            self.sides.second.round
        }
    }

    /// Whether the pair may be stored to. It is so from formatting, from settling and from each store on, until a call fails.
    pub fn sure(&self) -> bool
        ensures { IsTrue result ↔ (self.now.known ≡ Sure) }
    {
        self.known == Known::Sure
    }

    /// How often a call of the device has failed.
    pub fn faults(&self) -> u64
        ensures { result ≡ self.now.device.faults }
    {
        self.device.faults()
    }

    /// The lines of a side's record in use.
    pub fn lines_of(&self, side: u32) -> &[Line]
        requires { side < side_count self.now.head.kind }
        ensures { result.now ≡ lines_of self.now side }
    {
        if side == 0 {
            &self.sides.first.lines
        } else {
            &self.sides.second.lines
        }
    }

    /// Reads the cell of a queue's position. It writes nothing.
    ///
    /// After an error the pair has failed, and what was in doubt still is.
    pub fn read_cell(&mut self, position: u64) -> Result<Line, DeviceFault>
        requires { self.old.head.kind ≡ Queue }
        ensures ok { IfOk result
            (λ line. IfSome self.old.device.now (λ lines. line ≡ line_at lines (cell_place self.old.head position))) }
        ensures same { OnOk result (self.new ≡ self.old) }
        ensures err { IfErr result (λ fault. HasFailed IsNothing self.old.doubt self.old fault self.new) }
    {
        let from = self.device.faults();
        match cells::read(&mut self.device, &self.head, position) {
            Ok(line) => Ok(line),
            Err(_) => {
                let to = self.device.faults();
                Err(fail(&mut self.sides, &mut self.known, from, to))
            }
        }
    }

    /// Writes the cell of a queue's position that is free, and gives it to the device. The pair stays sure.
    ///
    /// After an error the pair has failed, and nothing is in doubt.
    pub fn put_cell(&mut self, position: u64, value: u64) -> Result<(), DeviceFault>
        requires { IsFree self.old position }
        ensures ok { OnOk result (HasPut position value self.old self.new) }
        ensures err { IfErr result
            (λ fault. HasFailed (IsFailedPrefix (put_ops self.old.head position value)) None self.old fault self.new) }
        ensures safe { PutCovers self.old self.new.device }
    {
        let from = self.device.faults();
        match cells::put(&mut self.device, &self.head, position, value) {
            Ok(()) => Ok(()),
            Err(_) => {
                let to = self.device.faults();
                Err(fail(&mut self.sides, &mut self.known, from, to))
            }
        }
    }

    /// Stores a side's next record: its lines are given to the device and fenced, and then the side switches to it. The pair stays sure.
    ///
    /// `lines` is a whole record that carries the round number after the side's. Of these the lines are written that differ from what
    /// the spare record is known to hold, or all where that isn't known. After an error the pair has failed, and keeps
    /// the record until settling decides whether it is in use.
    pub fn store(&mut self, side: u32, lines: &[Line]) -> Result<(), DeviceFault>
        requires sure { self.old.known ≡ Sure }
        requires next { IsNext self.old side lines.now }
        ensures ok { OnOk result (IsStored side lines.now self.old self.new) }
        ensures err { IfErr result (λ fault. HasFailedStore side lines.now self.old fault self.new) }
        ensures safe { OnOk result (StoreCovers side lines.now self.old self.new.device) }
        ensures fails_safe { OnErr result (FailedStoreCovers side lines.now self.old self.new) }
    {
        let from = self.device.faults();
        match self.sides.store(&mut self.device, &self.head, side, lines) {
            Ok(()) => Ok(()),
            Err(called) => {
                let to = self.device.faults();
                self.doubt = Some(Doubt { side, called });
                Err(fail(&mut self.sides, &mut self.known, from, to))
            }
        }
    }

    /// Makes what an opened pair found durable, or decides what a failed call left in doubt. The pair is sure.
    ///
    /// The answer says whether a record in doubt was put in use: it is so exactly where the failed store had called its index word.
    /// After an error the pair has failed, and the same is in doubt as before.
    pub fn settle(&mut self) -> Result<bool, DeviceFault>
        requires { self.old.known ≢ Sure }
        ensures ok { OnOk result (IsSettled self.old self.new) }
        ensures answer { OnOk result (result ≡ Ok (was_called self.old.doubt)) }
        ensures err { IfErr result
            (λ fault. HasFailed (IsFailedPrefix (settled_ops self.old)) self.old.doubt self.old fault self.new) }
        ensures safe { OnOk result (SettleCovers self.old self.new.device) }
        ensures fails_safe { OnErr result (FailedSettleCovers self.old self.new.device) }
    {
        let from = self.device.faults();
        let called = is_called(self.doubt);
        let on_first = is_called_on(self.doubt, 0);
        let on_second = is_called_on(self.doubt, 1);
        let first = self.sides.first.round_to_settle(on_first);
        let second = self.sides.second.round_to_settle(on_second);
        match settle_rounds(&mut self.device, &self.head, first, second) {
            Ok(()) => {
                self.sides.first.settle(on_first);
                self.sides.second.settle(on_second);
                self.known = Known::Sure;
                self.doubt = None;
                Ok(called)
            }
            Err(_) => {
                let to = self.device.faults();
                Err(fail(&mut self.sides, &mut self.known, from, to))
            }
        }
    }

    /// Hands the device back.
    pub fn close(self) -> P
        ensures { P.seen result ≡ self.device }
    {
        self.device
    }
}

// What a call answers whose device failed. Nothing is known from then on of what the device's records hold.
fn fail(sides: &mut Sides, known: &mut Known, from: u64, to: u64) -> DeviceFault
    ensures sides { HasForgotten sides.old sides.new }
    ensures known { known.new ≡ Known.Failed }
    ensures fault { result ≡ record { from = from; to = to } }
{
    sides.first.forget();
    sides.second.forget();
    *known = Known::Failed;
    DeviceFault { from, to }
}
