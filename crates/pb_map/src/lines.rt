//! A map's object lines, written, taken back and refused.
ghost use Rattle.std.specs.Prelude.{◌≡◌, ◌≢◌, ℕ, ◌+◌, ◌*◌, ◌/◌, ◌<◌, ◌≤◌, ◌↔◌, length, IsTrue, MatchOption, MatchResult};
ghost use Rattle.pb_object.specs.declared.limits.TheConstants.{MOST_SIZE};
ghost use Rattle.pb_map.specs.Registers.{AreRegisters, BringsUpToDate};
ghost use Rattle.pb_object.specs.Map.{register_at};
ghost use Rattle.pb_object.specs.MapLines.{register_in, IsRegisterAt, IsMapLine};
ghost use Rattle.pb_object.specs.Object.{Registers};
ghost use Rattle.pb_object.specs.ObjectLines.{LinesRepresent, IsFirstRefused};

use pb_object::{Ask, Kind, LAST_VERSION, NotAState, Register, put_register, register_in};
use pb_pmem::Line;

/// Writes the lines that represent registers.
pub fn put_registers(registers: &[Register], into: &mut [Line])
    requires registers { AreRegisters registers.now }
    requires count { length into.old ≡ (length registers.now + 3) / 4 }
    ensures { LinesRepresent into.new (Registers registers.now) }
{
    for key in 0..4 * into.len() {
        put_register(into, key, register_or_empty(registers, key));
    }
}

/// Writes the registers that requests name to their places among lines that represent the registers before these requests.
pub fn put_changed(registers: &[Register], asks: &[Ask], into: &mut [Line])
    requires registers { AreRegisters registers.now }
    requires count { length into.old ≡ (length registers.now + 3) / 4 }
    ensures { BringsUpToDate registers.now asks.now into.old into.new }
{
    for place in 0..asks.len() {
        let ask = asks[place];
        put_named(registers, ask.op.a, into);
    }
}

/// Writes a register to its place, where there is one of this key.
fn put_named(registers: &[Register], key: u64, into: &mut [Line])
    requires { length into.old ≡ (length registers.now + 3) / 4 }
    ensures long { length into.new ≡ length into.old }
    ensures here { key < length registers.now → register_in into.new key ≡ register_at registers.now key }
    ensures others { (other : ℕ) → other ≢ key → register_in into.new other ≡ register_in into.old other }
    ensures past { length registers.now ≤ key → into.new ≡ into.old }
{
    if key < registers.len() as u64 {
        put_register(into, key as usize, registers[key as usize]);
    }
}

fn register_or_empty(registers: &[Register], key: usize) -> Register
    ensures { result ≡ register_at registers.now key }
{
    registers.get(key).copied().unwrap_or_default()
}

/// Takes the registers that the lines represent, or names the first line that the format refuses and takes none.
pub fn take_registers(registers: &mut [Register], from: &[Line]) -> Result<(), NotAState>
    requires most { length registers.old ≤ MOST_SIZE }
    requires count { length from.now ≡ (length registers.old + 3) / 4 }
    ensures { MatchResult result
        (λ _. LinesRepresent from.now (Registers registers.new))
        (λ refused. IsFirstRefused Kind.Map (length registers.old) from.now refused.line × (registers.new ≡ registers.old)) }
{
    if let Some(line) = first_refused(registers.len(), from) {
        return Err(NotAState { line });
    }
    for (key, register) in registers.iter_mut().enumerate() {
        *register = register_in(from, key);
    }
    Ok(())
}

fn first_refused(size: usize, from: &[Line]) -> Option<u32>
    requires { length from.now ≤ MOST_SIZE }
    ensures { MatchOption result
        ((line : ℕ) → line < length from.now → IsMapLine size from.now line)
        (λ line. IsFirstRefused Kind.Map size from.now line) }
{
    for key in 0..4 * from.len() {
        if !is_register_at(size, key, register_in(from, key)) {
            return Some((key / 4) as u32);
        }
    }
    None
}

fn is_register_at(size: usize, key: usize, register: Register) -> bool
    ensures { IsTrue result ↔ IsRegisterAt size key register }
{
    register.version <= LAST_VERSION
        && (register.version > 0 || register.value == 0)
        && (key < size || register == Register::default())
}
