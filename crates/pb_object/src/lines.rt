//! The words of object lines: registers, counts and items at their places.
ghost use Rattle.std.specs.Prelude.{◌≡◌, ◌≢◌, ℕ, ◌+◌, ◌-◌, ◌*◌, ◌/◌, ◌<◌, ◌≤◌, ◌↔◌, length, slice_index, EachIndex, IsTrue};
ghost use Rattle.pb_object.specs.ItemLines.{count_in, item_in, HasOneWord, IsCountLine};
ghost use Rattle.pb_pmem.specs.Lines.{line_at};
ghost use Rattle.pb_object.specs.MapLines.{register_in};

use crate::map::Register;
use pb_pmem::Line;

/// The register that a map's lines have at this place.
pub fn register_in(lines: &[Line], key: usize) -> Register
    requires { key / 4 < length lines.now }
    ensures { result ≡ register_in lines.now key }
{
    let line = &lines[key / 4];
    let word = 2 * (key % 4);
    Register {
        value: line.words[word],
        version: line.words[word + 1],
    }
}

/// Writes a register to its place among a map's lines, and changes no other.
pub fn put_register(into: &mut [Line], key: usize, register: Register)
    requires { key / 4 < length into.old }
    ensures here { register_in into.new key ≡ register }
    ensures others { (other : ℕ) → other ≢ key → register_in into.new other ≡ register_in into.old other }
{
    let line = &mut into[key / 4];
    let word = 2 * (key % 4);
    line.words[word] = register.value;
    line.words[word + 1] = register.version;
}

/// How many items a stack's or a heap's lines say that there are.
pub fn count_in(lines: &[Line]) -> u64
    requires { 0 < length lines.now }
    ensures { result ≡ count_in lines.now }
{
    lines[0].words[0]
}

/// The item that a stack's or a heap's lines have at this place.
pub fn item_in(lines: &[Line], place: usize) -> u64
    requires { place / 8 + 1 < length lines.now }
    ensures { result ≡ item_in lines.now place }
{
    lines[place / 8 + 1].words[place % 8]
}

/// Writes an item to its place among a stack's or a heap's lines, and changes no other word.
pub fn put_item(into: &mut [Line], place: usize, item: u64)
    requires { place / 8 + 1 < length into.old }
    ensures here { item_in into.new place ≡ item }
    ensures others { (other : ℕ) → other ≢ place → item_in into.new other ≡ item_in into.old other }
    ensures first { line_at into.new 0 ≡ line_at into.old 0 }
{
    let line = &mut into[place / 8 + 1];
    line.words[place % 8] = item;
}

/// Writes items to a stack's or a heap's lines: their count, the items in this order, and zeros after them.
pub fn put_items(items: &[u64], into: &mut [Line])
    requires count_line { 0 < length into.old }
    requires room { length items.now ≤ 8 * (length into.old - 1) }
    ensures count { count_in into.new ≡ length items.now }
    ensures rest { HasOneWord (line_at into.new 0) }
    ensures places { (place : ℕ) → place / 8 + 1 < length into.new → item_in into.new place ≡ slice_index items.now place }
{
    put_count(items.len(), &mut into[0]);
    for place in 0..8 * (into.len() - 1) {
        put_item(into, place, items.get(place).copied().unwrap_or(0));
    }
}

fn put_count(count: usize, into: &mut Line)
    ensures count { slice_index into.new.words 0 ≡ count }
    ensures rest { HasOneWord into.new }
{
    *into = Line::default();
    into.words[0] = count as u64;
}

/// Reads the items at the first places of a stack's or a heap's lines.
pub fn read_items(from: &[Line], places: &mut [u64])
    requires { length places.old ≤ 8 * (length from.now - 1) }
    ensures { EachIndex places.new (λ place. slice_index places.new place ≡ item_in from.now place) }
{
    for (place, item) in places.iter_mut().enumerate() {
        *item = item_in(from, place);
    }
}

/// Whether a stack's or a heap's first line is one that the format allows.
pub fn is_count_line(size: usize, line: &Line) -> bool
    ensures { IsTrue result ↔ IsCountLine size line.now }
{
    line.words[0] <= size as u64 && has_one_word(line)
}

fn has_one_word(line: &Line) -> bool
    ensures { IsTrue result ↔ HasOneWord line.now }
{
    for word in 1..8 {
        if line.words[word] != 0 {
            return false;
        }
    }
    true
}
