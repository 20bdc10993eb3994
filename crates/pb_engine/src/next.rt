//! Memory for the record that a round stores.
ghost use Rattle.std.specs.Prelude.{◌≡◌, ◌+◌, ◌*◌, ◌-◌, ◌<◌, ◌≤◌, length, drop, replicate, IfOk};
ghost use Rattle.pb_object.specs.declared.limits.TheConstants.{MOST_CLIENTS};
ghost use Rattle.pb_object.specs.declared.request.TheConstants.{KEPT_REQUESTS};
ghost use Rattle.pb_pmem.specs.Lines.{zero_line, line_at};
ghost use Rattle.pb_object.specs.Changes.{after_asks};
ghost use Rattle.pb_object.specs.Object.{State};
ghost use Rattle.pb_object.specs.ObjectLines.{object_line_count, size_of, LinesRepresent};
ghost use Rattle.pb_layout.specs.Record.{count_line_of};
ghost use Rattle.pb_layout.specs.Slots.{PutsInFront};
ghost use Rattle.pb_engine.specs.Next.{IsBegun, KeepsBefore};

use pb_layout::{count_line, put_in_front};
use pb_object::{Ask, Kept, Object};
use pb_pmem::Line;
use std::alloc::{AllocError, Global};
use std::marker::Model;

/// Memory for the lines of the record that a round stores. A contract sees the lines.
#[derive(Drop)]
pub struct NextRecord {
    lines: Vec<Line>,
}

impl Model for NextRecord {
    ghost use Rattle.std.specs.Prelude.{List};
    ghost use Rattle.pb_pmem.specs.declared.line.Line.{Line};

    ghost Value = { List Line };

    ghost view = { λ next. next.lines.items };

    ghost invariant = { λ _. Unit {0} };
}

impl NextRecord {
    /// So many lines of zeros.
    pub fn fresh(alloc: Global, count: u32) -> Result<NextRecord, AllocError>
        ensures { IfOk result (λ next. next ≡ replicate count zero_line) }
    {
        let lines = vec![in alloc; Line::default(); count as usize]?;
        Ok(NextRecord { lines })
    }

    /// The lines.
    pub fn lines(&self) -> &[Line]
        ensures { result.now ≡ self.now }
    {
        &self.lines
    }

    /// Takes the lines of a record.
    pub fn follow(&mut self, other: &[Line])
        requires { length other.now ≡ length self.old }
        ensures { self.new ≡ other.now }
    {
        self.lines.copy_from_slice(other);
    }

    /// Begins the record after the one that these are the lines of: with the next round number.
    pub fn carry(&mut self, round: u64)
        requires { 0 < length self.old }
        ensures { IsBegun self.old round self.new }
    {
        self.lines[0] = count_line(round);
    }

    /// Begins the record after another one: its lines, with the next round number.
    pub fn begin(&mut self, before: &[Line], round: u64)
        requires long { length before.now ≡ length self.old }
        requires some { 0 < length self.old }
        ensures { IsBegun before.now round self.new }
    {
        self.follow(before);
        self.carry(round);
    }

    /// Puts a request in front of its client's slots of the record in use.
    pub fn put(&mut self, before: &[Line], client: u32, kept: &Kept)
        requires client { client < MOST_CLIENTS }
        requires before { KEPT_REQUESTS * client + KEPT_REQUESTS < length before.now }
        requires room { KEPT_REQUESTS * client + KEPT_REQUESTS < length self.old }
        ensures slots { PutsInFront before.now client kept.now self.old self.new }
        ensures long { length self.new ≡ length self.old }
    {
        put_in_front(before, client, kept, &mut self.lines);
    }

    /// Writes the last line: a number and zeros, as a queue's object line is.
    pub fn put_count(&mut self, count: u64)
        requires { 0 < length self.old }
        ensures others { KeepsBefore (length self.old - 1) self.old self.new }
        ensures count { line_at self.new (length self.old - 1) ≡ count_line_of count }
    {
        let last = self.lines.len() - 1;
        self.lines[last] = count_line(count);
    }

    /// Brings the object's lines up to date, which are the last ones, where they represent the object before these requests.
    pub fn put_changes<O: Object>(&mut self, asks: &[Ask], object: &O)
        requires { object_line_count O.KIND (size_of (O.state object.now)) ≤ length self.old }
        ensures others { KeepsBefore (length self.old - object_line_count O.KIND (size_of (O.state object.now))) self.old self.new }
        ensures objects { let first = length self.old - object_line_count O.KIND (size_of (O.state object.now)) in
            (before : State)
            → LinesRepresent (drop first self.old) before
            → O.state object.now ≡ after_asks before asks.now
            → LinesRepresent (drop first self.new) (O.state object.now) }
    {
        let first = self.lines.len() - object.lines() as usize;
        object.put_changes(asks, &mut self.lines[first..]);
    }

    /// Writes the object's lines, which are the last ones.
    pub fn put_object<O: Object>(&mut self, object: &O)
        requires { object_line_count O.KIND (size_of (O.state object.now)) ≤ length self.old }
        ensures others { KeepsBefore (length self.old - object_line_count O.KIND (size_of (O.state object.now))) self.old self.new }
        ensures objects { let first = length self.old - object_line_count O.KIND (size_of (O.state object.now)) in
            LinesRepresent (drop first self.new) (O.state object.now) }
    {
        let first = self.lines.len() - object.lines() as usize;
        object.put_lines(&mut self.lines[first..]);
    }
}
