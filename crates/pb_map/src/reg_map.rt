//! The map of registers.
ghost use Rattle.std.specs.Prelude.{◌≡◌, ◌<◌, length, refl};
ghost use Rattle.pb_object.specs.declared.kind.Kind.TheVariants.{Map};
ghost use Rattle.pb_object.specs.Map.{register_at};
ghost use Rattle.pb_object.specs.Object.{Registers};

use crate::lines::{put_changed, put_registers, take_registers};
use pb_object::{Ask, Kind, NotAState, Object, Op, Register, Reply, apply_to_map};
use pb_pmem::Line;
use std::alloc::{AllocError, Global};
use std::marker::Model;

/// A map of registers, each with a value and a version that counts its writes. A contract sees it as its list of registers.
#[derive(Drop)]
pub struct RegMap {
    registers: Vec<Register>,
}

impl Model for RegMap {
    ghost use Rattle.std.specs.Prelude.{List};
    ghost use Rattle.pb_object.specs.declared.map.Register.{Register};
    ghost use Rattle.pb_map.specs.Registers.{AreRegisters};

    ghost Value = { List Register };

    ghost view = { λ map. map.registers.items };

    ghost invariant = { λ map. AreRegisters map.registers.items };
}

impl RegMap {
    /// The value and the version of a register.
    pub fn register(&self, key: u32) -> (u64, u64)
        requires { key < length self.now }
        ensures { let register = register_at self.now key in result ≡ (register.value, register.version) }
    {
        let register = &self.registers[key as usize];
        (register.value, register.version)
    }
}

impl Object for RegMap {
    const KIND: Kind = Kind::Map;

    ghost KIND = { Map };

    ghost state = { Registers };

    fn fresh(alloc: Global, size: u32) -> Result<Self, AllocError> {
        let registers = vec![in alloc; Register::default(); size as usize]?;
        Ok(RegMap { registers })
    }

    fn size(&self) -> u32 {
        self.registers.len() as u32
    }

    fn apply(&mut self, op: &Op) -> Reply {
        apply_to_map(&mut self.registers, op)
    }

    fn copy_from(&mut self, from: &Self) {
        self.registers.copy_from_slice(&from.registers);
    }

    fn lines(&self) -> u32 {
        (self.registers.len() as u32 + 3) / 4
    }

    fn put_lines(&self, into: &mut [Line]) {
        put_registers(&self.registers, into);
    }

    fn put_changes(&self, asks: &[Ask], into: &mut [Line]) {
        put_changed(&self.registers, asks, into);
    }

    fn take_lines(&mut self, from: &[Line]) -> Result<(), NotAState> {
        take_registers(&mut self.registers, from)
    }

    ghost is_of_kind = { λ _. refl };

    ghost is_no_queue = { λ e. Prim.cc };
}
