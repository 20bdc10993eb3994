//! A side of a pair: its record in use, and memory for the spare one.
ghost use Rattle.std.specs.Prelude.{◌≡◌, ◌+◌, ◌<◌, ◌&&◌, true, false, length, IfOk, OnOk, IfErr};
ghost use Rattle.pb_pmem.specs.Lines.{line_at};
ghost use Rattle.pb_object.specs.Standing.{side_count};
ghost use Rattle.pb_layout.specs.Shape.{IsHeader};
ghost use Rattle.pb_layout.specs.Header.{record_length, word};
ghost use Rattle.pb_pair.specs.Format.{fresh_side};
ghost use Rattle.pb_pair.specs.Settle.{settled_by};
ghost use Rattle.pb_pair.specs.Store.{StoresSide, StopsSide, StoresSides, StopsSides};
ghost use Rattle.pb_pair.specs.View.{HasRoom, at_side, side_view, forgotten};

use crate::store::{commit, stage};
use pb_layout::{Header, record_line};
use pb_pmem::{Line, Pmem};
use std::alloc::{AllocError, Global};
use std::mem::swap;

/// How many rounds a side had, and its records.
#[derive(Drop)]
pub struct Side {
    pub round: u64,
    /// The record in use.
    pub lines: Vec<Line>,
    /// Whether this pair wrote the record in use, and no call failed since.
    pub written: bool,
    /// Memory for the spare record. After a failed store it holds the record in doubt.
    pub spare: Vec<Line>,
    /// Whether the device's spare record holds these lines.
    pub spare_known: bool,
}

/// The sides of a pair. An object with one side has the first, and the second is empty.
#[derive(Drop)]
pub struct Sides {
    pub first: Side,
    pub second: Side,
}

impl Sides {
    /// Stores these lines as the next record of a side, and leaves the other side as it is. Takes no memory.
    ///
    /// An error says whether the index word had been called.
    pub fn store<P: Pmem>(
        &mut self,
        device: &mut P,
        head: &Header,
        side: u32,
        lines: &[Line],
    ) -> Result<(), bool>
        requires header { IsHeader head.now }
        requires here { side < side_count head.now.kind }
        requires long { length lines.now ≡ record_length head.now }
        requires memory { HasRoom self.old }
        requires in_use { length (at_side self.old.first.lines.items self.old.second.lines.items side) ≡ length lines.now }
        requires next { word (line_at lines.now 0) 0 ≡ (at_side self.old.first self.old.second side).round + 1 }
        ensures room { HasRoom self.new }
        ensures ok { OnOk result (StoresSides head.now side lines.now self.old self.new (P.seen device.old) (P.seen device.new)) }
        ensures err { IfErr result
            (λ called. StopsSides head.now side lines.now called self.old self.new (P.seen device.old) (P.seen device.new)) }
    {
        if side == 0 {
            self.first.store(device, head, side, lines)
        } else {
            self.second.store(device, head, side, lines)
        }
    }
}

impl Side {
    /// A side with this record of round 0. Takes memory for two records.
    pub fn fresh(alloc: Global, first: &[Line], written: bool) -> Result<Side, AllocError>
        ensures view { IfOk result (λ side. side_view side ≡ fresh_side written first.now) }
        ensures room { IfOk result (λ side. length side.spare.items ≡ length side.lines.items) }
    {
        let lines = Vec::from_slice(alloc, first)?;
        let spare = Vec::from_slice(alloc, first)?;
        Ok(Side {
            round: 0,
            lines,
            written,
            spare,
            spare_known: false,
        })
    }

    /// Stores these lines as the next record: they are given to the device and fenced, and then the side switches to them. Takes no
    /// memory.
    ///
    /// An error says whether the index word had been called.
    pub fn store<P: Pmem>(
        &mut self,
        device: &mut P,
        head: &Header,
        side: u32,
        lines: &[Line],
    ) -> Result<(), bool>
        requires header { IsHeader head.now }
        requires here { side < side_count head.now.kind }
        requires long { length lines.now ≡ record_length head.now }
        requires memory { length self.old.spare.items ≡ length lines.now }
        requires in_use { length self.old.lines.items ≡ length lines.now }
        requires next { word (line_at lines.now 0) 0 ≡ self.old.round + 1 }
        ensures room { length self.new.spare.items ≡ length self.new.lines.items }
        ensures ok { OnOk result
            (StoresSide head.now side lines.now (side_view self.old) (side_view self.new) (P.seen device.old) (P.seen device.new)) }
        ensures err { IfErr result
            (λ called. StopsSide head.now side lines.now self.new.spare.items called
            (side_view self.old) (side_view self.new) (P.seen device.old) (P.seen device.new)) }
    {
        let next = lines[0].words[0];
        let first = record_line(head, side, (next % 2) as u32);
        if stage(device, first, self.spare_known, &mut self.spare, lines).is_err() {
            self.spare.copy_from_slice(lines);
            return Err(false);
        }
        if commit(device, side, next).is_err() {
            return Err(true);
        }
        swap(&mut self.lines, &mut self.spare);
        self.round = next;
        self.spare_known = self.written;
        self.written = true;
        Ok(())
    }

    /// The round number that settling writes for this side: the next one where the index word of the record in doubt was called.
    pub fn round_to_settle(&self, called: bool) -> u64
        requires some { called ≡ true → 0 < length self.now.spare.items }
        requires next { called ≡ true → word (line_at self.now.spare.items 0) 0 ≡ self.now.round + 1 }
        ensures { result ≡ (settled_by called self.now.spare.items (side_view self.now)).round }
    {
        if called {
            self.spare[0].words[0]
        } else {
            self.round
        }
    }

    /// Puts the record in doubt in use where its index word was called.
    pub fn settle(&mut self, called: bool)
        requires room { length self.old.spare.items ≡ length self.old.lines.items }
        requires some { called ≡ true → 0 < length self.old.spare.items }
        requires next { called ≡ true → word (line_at self.old.spare.items 0) 0 ≡ self.old.round + 1 }
        ensures view { side_view self.new ≡ settled_by called self.old.spare.items (side_view self.old) }
        ensures room { length self.new.spare.items ≡ length self.new.lines.items }
    {
        if called {
            self.round = self.spare[0].words[0];
            swap(&mut self.lines, &mut self.spare);
            self.written = false;
            self.spare_known = false;
        }
    }

    /// Forgets what the device's records are known to hold.
    pub fn forget(&mut self)
        ensures view { side_view self.new ≡ forgotten (side_view self.old) }
        ensures spare { self.new.spare ≡ self.old.spare }
    {
        self.written = false;
        self.spare_known = false;
    }
}
