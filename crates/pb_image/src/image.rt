ghost use Rattle.std.specs.Prelude.{◌≡◌, ◌+◌, ◌<◌, ◌≤◌, [], ◌∷◌, ◌++◌, length, IfOk, OnOk, OnErr, IsTrue, is_ok, is_none, replicate, vec_len, vec_capacity};
ghost use Rattle.pb_pmem.specs.declared.line.TheConstants.{LINES};
ghost use Rattle.pb_pmem.specs.Contents.{applied, contents};
ghost use Rattle.pb_pmem.specs.Count.{last_count};
ghost use Rattle.pb_pmem.specs.Lines.{line_at, zero_line};

use crate::bytes::lines_from;
use crate::calls::{Calls, NO_CALLS, added_by, answer, count, failure, faults_after};
use crate::fail::{Call, Fail};
use crate::lines::{pick_image, zero_lines};
use pb_crash::{Leaves, add, cuts_of};
use pb_pmem::{LINES, Line, LogOp, Pmem, PmemFault};
use std::alloc::{AllocError, Global};
use std::marker::Model;

/// A device in memory. It keeps what it began with and the operations since then, and it fails where it is told to.
#[derive(Drop)]
pub struct Image {
    base: Vec<Line>,
    lines: Vec<Line>,
    log: Vec<LogOp>,
    room: u32,
    fails: Vec<Fail>,
    calls: Calls,
    faults: u64,
    ghost whole: { length base.items ≡ LINES },
}

impl Model for Image {
    ghost use Rattle.std.specs.Prelude.{vec_capacity};
    ghost use Rattle.pb_image.specs.State.{ImageView, AreImageParts};

    ghost Value = { ImageView };

    ghost view = { λ i. record {
      base = i.base.items;
      log = i.log.items;
      room = i.room;
      fails = i.fails.items;
      calls = i.calls;
      faults = i.faults;
      whole = i.whole;
    } };

    ghost invariant = { λ i. AreImageParts i.base.items i.lines.items i.log.items i.room (vec_capacity i.log) };
}

impl Image {
    ghost use Rattle.std.specs.Prelude.{◌*◌, take};
    ghost use Rattle.pb_pmem.specs.Crash.{least_cut, greatest_cut, IsCrashImageAtCut, IsAtRest};
    ghost use Rattle.pb_image.specs.Bytes.{lines_of_bytes};
    ghost use Rattle.pb_crash.specs.Picked.{picked};
    ghost use Rattle.pb_image.specs.State.{ImageView, IsNew};

    /// A device of zeros, with an empty log that has room for `room` operations, and nothing that is to fail.
    pub fn zero(alloc: Global, room: u32) -> Result<Self, AllocError>
        ensures { IfOk result (IsNew (replicate LINES zero_line) room) }
    {
        Image::begin(alloc, zero_lines(alloc)?, room)
    }

    /// A device of these bytes, 64 a line and eight a word, the lowest first. Its log is empty, with room for `room` operations.
    pub fn from_bytes(alloc: Global, bytes: &[u8], room: u32) -> Result<Self, AllocError>
        requires { length bytes.now ≡ 64 * LINES }
        ensures { IfOk result (IsNew (lines_of_bytes LINES bytes.now) room) }
    {
        Image::begin(alloc, lines_from(alloc, bytes)?, room)
    }

    // A device that begins with these lines.
    fn begin(alloc: Global, base: Vec<Line>, room: u32) -> Result<Self, AllocError>
        requires { length base.items ≡ LINES }
        ensures { IfOk result (IsNew base.items room) }
    {
        let lines = Vec::from_slice(alloc, &base)?;
        let log = Vec::with_capacity(alloc, room as usize)?;
        Ok(Image {
            base,
            lines,
            log,
            room,
            fails: Vec::new(alloc),
            calls: NO_CALLS,
            faults: 0,
        })
    }

    /// The least and the greatest cut that a crash after the first `moment` operations may pick.
    pub fn cuts(&self, moment: u32) -> (u32, u32)
        requires { moment ≤ length self.now.log }
        ensures least { result.0 ≡ least_cut (take moment self.now.log) }
        ensures greatest { result.1 ≡ greatest_cut (take moment self.now.log) }
    {
        cuts_of(self.log.split_at(moment as usize).0)
    }

    /// A new device, as a crash after the first `moment` operations leaves this one at a cut.
    /// Pick 0 leaves nothing of the loose writes, pick 1 all of them, and a greater pick fills with itself each line
    /// that one of them wrote whole, and leaves the others. The new device is at rest.
    pub fn after_crash(
        &self,
        alloc: Global,
        moment: u32,
        cut: u32,
        pick: u64,
        room: u32,
    ) -> Result<Self, AllocError>
        requires moment { moment ≤ length self.now.log }
        requires low { least_cut (take moment self.now.log) ≤ cut }
        requires high { cut ≤ greatest_cut (take moment self.now.log) }
        ensures exact { IfOk result (IsNew (picked self.now.base (take moment self.now.log) cut pick) room) }
        ensures allowed { IfOk result (λ image. IsCrashImageAtCut self.now.base (take moment self.now.log) cut image.base) }
        ensures rest { IfOk result (λ image. IsAtRest image.base image.log) }
    {
        let log = self.log.split_at(moment as usize).0;
        Image::begin(alloc, pick_image(alloc, &self.base, log, cut, pick)?, room)
    }

    /// The operations since the device began, in their order.
    pub fn log(&self) -> &[LogOp]
        ensures { result.now ≡ self.now.log }
    {
        &self.log
    }

    /// A line as it is now.
    pub fn line(&self, line: u32) -> Line
        requires { line < LINES }
        ensures { result ≡ line_at (contents self.now.base self.now.log) line }
    {
        self.lines[line as usize]
    }
}

impl Image {
    ghost use Rattle.pb_pmem.specs.Device.{Adds, Fails};
    ghost use Rattle.pb_crash.specs.Within.{is_within};
    ghost use Rattle.pb_image.specs.State.{ImageView, failure_of, failure_of_read, after_device_call, after_read, seen_of, IsLeftBy};

    /// Replaces what is to fail, and counts calls from 1 from now on.
    pub fn failing(&mut self, fails: Vec<Fail>)
        ensures { self.new ≡ record self.old { fails = fails.items; calls = NO_CALLS } }
    {
        self.fails = fails;
        self.calls = NO_CALLS;
    }

    /// How the next read fails, which is counted here.
    fn next_read(&mut self) -> Option<Leaves>
        ensures how { result ≡ failure_of_read self.old }
        ensures after { self.new ≡ after_read self.old }
        ensures small { self.old.faults ≤ last_count }
    {
        let how = failure(&self.fails, Call::Read, &self.calls);
        count(&mut self.calls, Call::Read);
        self.faults = faults_after(how, self.faults);
        how
    }

    /// How the next call of a kind, which adds an operation, fails.
    fn next_failure(&self, call: Call) -> Option<Leaves>
        ensures { result ≡ failure_of call self.now }
    {
        if self.room as usize <= self.log.len() {
            return Some(Leaves::Left);
        }
        failure(&self.fails, call, &self.calls)
    }

    /// Makes a call that adds an operation.
    fn call(&mut self, call: Call, op: LogOp) -> Result<(), PmemFault>
        requires { IsTrue (is_within op) }
        ensures answer { is_ok result ≡ is_none (failure_of call self.old) }
        ensures after { self.new ≡ after_device_call call op self.old }
        ensures ok { OnOk result (Adds op (seen_of self.old) (seen_of self.new)) }
        ensures err { OnErr result (Fails (IsLeftBy op) (seen_of self.old) (seen_of self.new)) }
    {
        let how = self.next_failure(call);
        count(&mut self.calls, call);
        add(&mut self.lines, &mut self.log, added_by(op, how));
        self.faults = faults_after(how, self.faults);
        answer(how)
    }
}

impl Pmem for Image {
    ghost use Rattle.std.specs.Prelude.{refl};
    ghost use Rattle.std.proofs.Common.{◌∙◌};
    ghost use Rattle.pb_pmem.specs.declared.log.LogOp.{LogOp};
    ghost use Rattle.pb_pmem.specs.Device.{Adds, Fails, Reads, IsNoOp, IsWholeOf, Is, IsMark};
    ghost use Rattle.pb_pmem.proofs.Lines.{length-contents};
    ghost use Rattle.pb_image.specs.State.{seen_of, failure_of, failure_of_read, after_device_call, after_read};

    ghost seen = { seen_of };

    ghost is_whole = { λ image. length-contents image.base image.log ∙ image.whole };

    ghost is_replay = { λ image. refl };

    fn read(&mut self, line: u32, into: &mut Line) -> Result<(), PmemFault>
        requires { line < LINES }
        ensures ok { OnOk result (Reads line into.new (seen_of self.old) (seen_of self.new)) }
        ensures err { OnErr result (Fails IsNoOp (seen_of self.old) (seen_of self.new)) }
        ensures answer { is_ok result ≡ is_none (failure_of_read self.old) }
        ensures after { self.new ≡ after_read self.old }
    {
        if self.next_read().is_some() {
            return Err(PmemFault);
        }
        *into = self.lines[line as usize];
        Ok(())
    }

    fn write(&mut self, line: u32, from: &Line) -> Result<(), PmemFault>
        requires { line < LINES }
        ensures ok { OnOk result (Adds (LogOp.Whole line from.now) (seen_of self.old) (seen_of self.new)) }
        ensures err { OnErr result (Fails (IsWholeOf line) (seen_of self.old) (seen_of self.new)) }
        ensures answer { is_ok result ≡ is_none (failure_of Call.Write self.old) }
        ensures after { self.new ≡ after_device_call Call.Write (LogOp.Whole line from.now) self.old }
    {
        self.call(Call::Write, LogOp::Whole { line, to: *from })
    }

    fn set_word(&mut self, line: u32, word: u32, value: u64) -> Result<(), PmemFault>
        requires line { line < LINES }
        requires word { word < 8 }
        ensures ok { OnOk result (Adds (LogOp.Word line word value) (seen_of self.old) (seen_of self.new)) }
        ensures err { OnErr result (Fails (Is (LogOp.Word line word value)) (seen_of self.old) (seen_of self.new)) }
        ensures answer { is_ok result ≡ is_none (failure_of Call.SetWord self.old) }
        ensures after { self.new ≡ after_device_call Call.SetWord (LogOp.Word line word value) self.old }
    {
        let op = LogOp::Word {
            line,
            word,
            to: value,
        };
        self.call(Call::SetWord, op)
    }

    fn write_back(&mut self, first: u32, count: u32) -> Result<(), PmemFault>
        requires { first + count ≤ LINES }
        ensures ok { OnOk result (Adds (LogOp.Back first count) (seen_of self.old) (seen_of self.new)) }
        ensures err { OnErr result (Fails (Is (LogOp.Back first count)) (seen_of self.old) (seen_of self.new)) }
        ensures answer { is_ok result ≡ is_none (failure_of Call.WriteBack self.old) }
        ensures after { self.new ≡ after_device_call Call.WriteBack (LogOp.Back first count) self.old }
    {
        self.call(Call::WriteBack, LogOp::Back { first, count })
    }

    fn fence(&mut self) -> Result<(), PmemFault>
        ensures ok { OnOk result (Adds LogOp.Fence (seen_of self.old) (seen_of self.new)) }
        ensures err { OnErr result (Fails (Is LogOp.Fence) (seen_of self.old) (seen_of self.new)) }
        ensures answer { is_ok result ≡ is_none (failure_of Call.Fence self.old) }
        ensures after { self.new ≡ after_device_call Call.Fence LogOp.Fence self.old }
    {
        self.call(Call::Fence, LogOp::Fence)
    }

    fn sync(&mut self) -> Result<(), PmemFault>
        ensures ok { OnOk result (Adds LogOp.Sync (seen_of self.old) (seen_of self.new)) }
        ensures err { OnErr result (Fails IsMark (seen_of self.old) (seen_of self.new)) }
        ensures answer { is_ok result ≡ is_none (failure_of Call.Sync self.old) }
        ensures after { self.new ≡ after_device_call Call.Sync LogOp.Sync self.old }
    {
        self.call(Call::Sync, LogOp::Sync)
    }

    fn faults(&self) -> u64 {
        self.faults
    }
}
