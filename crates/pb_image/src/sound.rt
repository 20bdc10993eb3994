ghost use Rattle.std.specs.Prelude.{◌≡◌, ◌+◌, ◌<◌, ◌≤◌, length, replicate, IfOk};
ghost use Rattle.pb_pmem.specs.declared.line.TheConstants.{LINES};
ghost use Rattle.pb_pmem.specs.Lines.{zero_line};

use crate::lines::zero_lines;
use pb_crash::apply;
use pb_pmem::{LINES, Line, LogOp, Pmem, PmemFault};
use std::alloc::{AllocError, Global};
use std::marker::Model;

/// A device in memory that never fails. It tells its lines and keeps no log, so it never fills up.
#[derive(Drop)]
pub struct Sound {
    lines: Vec<Line>,
    ghost whole: { length lines.items ≡ LINES },
}

impl Model for Sound {
    ghost use Rattle.pb_image.specs.Sound.{SoundView};

    ghost Value = { SoundView };

    ghost view = { λ sound. record { lines = sound.lines.items; whole = sound.whole } };

    ghost invariant = { λ sound. Unit {0} };
}

impl Sound {
    /// A device of zeros.
    pub fn zero(alloc: Global) -> Result<Self, AllocError>
        ensures { IfOk result (λ sound. sound.lines ≡ replicate LINES zero_line) }
    {
        let lines = zero_lines(alloc)?;
        Ok(Sound { lines })
    }
}

impl Pmem for Sound {
    ghost use Rattle.std.specs.Prelude.{◌≡◌, ◌+◌, ◌<◌, ◌≤◌, IsOk, OnOk, OnErr};
    ghost use Rattle.pb_pmem.specs.declared.log.LogOp.{LogOp};
    ghost use Rattle.pb_pmem.specs.Device.{Adds, Fails, Reads, IsNoOp, IsWholeOf, Is, IsMark};
    ghost use Rattle.pb_image.specs.Sound.{sound_seen};

    ghost seen = { sound_seen };

    ghost is_whole = { λ sound. sound.whole };

    ghost is_replay = { λ sound. tt };

    fn read(&mut self, line: u32, into: &mut Line) -> Result<(), PmemFault>
        requires { line < LINES }
        ensures ok { OnOk result (Reads line into.new (sound_seen self.old) (sound_seen self.new)) }
        ensures err { OnErr result (Fails IsNoOp (sound_seen self.old) (sound_seen self.new)) }
        ensures never_fails { IsOk result }
    {
        *into = self.lines[line as usize];
        Ok(())
    }

    fn write(&mut self, line: u32, from: &Line) -> Result<(), PmemFault>
        requires { line < LINES }
        ensures ok { OnOk result (Adds (LogOp.Whole line from.now) (sound_seen self.old) (sound_seen self.new)) }
        ensures err { OnErr result (Fails (IsWholeOf line) (sound_seen self.old) (sound_seen self.new)) }
        ensures never_fails { IsOk result }
    {
        let op = LogOp::Whole { line, to: *from };
        apply(&mut self.lines, &op);
        Ok(())
    }

    fn set_word(&mut self, line: u32, word: u32, value: u64) -> Result<(), PmemFault>
        requires line { line < LINES }
        requires word { word < 8 }
        ensures ok { OnOk result (Adds (LogOp.Word line word value) (sound_seen self.old) (sound_seen self.new)) }
        ensures err { OnErr result (Fails (Is (LogOp.Word line word value)) (sound_seen self.old) (sound_seen self.new)) }
        ensures never_fails { IsOk result }
    {
        let op = LogOp::Word {
            line,
            word,
            to: value,
        };
        apply(&mut self.lines, &op);
        Ok(())
    }

    fn write_back(&mut self, first: u32, count: u32) -> Result<(), PmemFault>
        requires { first + count ≤ LINES }
        ensures ok { OnOk result (Adds (LogOp.Back first count) (sound_seen self.old) (sound_seen self.new)) }
        ensures err { OnErr result (Fails (Is (LogOp.Back first count)) (sound_seen self.old) (sound_seen self.new)) }
        ensures never_fails { IsOk result }
    {
        Ok(())
    }

    fn fence(&mut self) -> Result<(), PmemFault>
        ensures ok { OnOk result (Adds LogOp.Fence (sound_seen self.old) (sound_seen self.new)) }
        ensures err { OnErr result (Fails (Is LogOp.Fence) (sound_seen self.old) (sound_seen self.new)) }
        ensures never_fails { IsOk result }
    {
        Ok(())
    }

    fn sync(&mut self) -> Result<(), PmemFault>
        ensures ok { OnOk result (Adds LogOp.Sync (sound_seen self.old) (sound_seen self.new)) }
        ensures err { OnErr result (Fails IsMark (sound_seen self.old) (sound_seen self.new)) }
        ensures never_fails { IsOk result }
    {
        Ok(())
    }

    fn faults(&self) -> u64 {
        0
    }
}
