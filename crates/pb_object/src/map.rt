//! A map's plain state: its registers.
ghost use Rattle.std.specs.Prelude.{◌≡◌};
ghost use Rattle.pb_object.specs.Map.{last_version, after_write, write_reply, map_reply, next_registers};

use crate::codes::{Action, Answer};
use crate::request::{Op, Reply};

/// The last version that a register can have: 2^62. A register that stands there is worn: it is written no more.
pub const LAST_VERSION: u64 = 4611686018427387904;

/// A register of a map. One that was never written has value 0 and version 0.
#[derive(Clone, Copy, Debug, Default, PartialEq, Eq)]
pub struct Register {
    /// What was written last.
    pub value: u64,
    /// How often the register was written.
    pub version: u64,
}

impl Register {
    /// Writes a value, unless the register is worn.
    pub fn write(&mut self, value: u64) -> Reply
        ensures after { self.new ≡ after_write value self.old }
        ensures reply { result ≡ write_reply self.old }
    {
        if self.version >= LAST_VERSION {
            return Reply::new(Answer::Worn, 0, 0);
        }
        let old = self.value;
        self.value = value;
        self.version += 1;
        Reply::new(Answer::Was, old, self.version)
    }
}

/// What an operation does to a map's registers, and its reply.
pub fn apply_to_map(registers: &mut [Register], op: &Op) -> Reply
    ensures after { registers.new ≡ next_registers registers.old op.now }
    ensures reply { result ≡ map_reply registers.old op.now }
{
    let key = op.a as usize;
    if key >= registers.len() {
        return Reply::new(Answer::NoKey, 0, 0);
    }
    let register = &mut registers[key];
    match Action::from_code(op.code) {
        Some(Action::Get) => Reply::new(Answer::Is, register.value, register.version),
        Some(Action::Put) => register.write(op.b),
        Some(Action::Cas) => {
            if register.version == op.b {
                register.write(op.c)
            } else {
                Reply::new(Answer::Stale, register.value, register.version)
            }
        }
        _ => Reply::default(),
    }
}
