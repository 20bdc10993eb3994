//! The lines of a stack or a heap, taken back and refused.
ghost use Rattle.std.specs.Prelude.{◌≡◌, ℕ, ◌+◌, ◌/◌, ◌<◌, ◌≤◌, ◌↔◌, List, length, IsTrue, MatchOption, MatchResult};
ghost use Rattle.pb_pmem.specs.declared.line.Line.{Line};
ghost use Rattle.pb_object.specs.declared.kind.Kind.{Kind};
ghost use Rattle.pb_object.specs.declared.limits.TheConstants.{MOST_SIZE};
ghost use Rattle.pb_object.specs.ItemLines.{IsItemLine, TakesItems};
ghost use Rattle.pb_object.specs.ObjectLines.{IsAllowedLine, IsFirstRefused};

use crate::lines::{count_in, is_count_line, read_items};
use crate::object::NotAState;
use pb_pmem::Line;

/// A kind of object whose lines are a count and then eight items a line. It says what may stand at an item's place.
pub trait HoldsItems {
    ghost kind: { Kind };

    ghost IsPlace: { List Line → ℕ → Type 0 };

    /// Whether the format allows what stands at this place.
    fn is_place(from: &[Line], place: usize) -> bool
        requires { place / 8 + 1 < length from.now }
        ensures { IsTrue result ↔ IsPlace from.now place };

    /// The kind's lines are allowed where these places are.
    ghost by_places: { (size : ℕ) (lines : List Line) (line : ℕ)
        → IsAllowedLine kind size lines line ↔ IsItemLine IsPlace size lines line };
}

/// Reads the items that the lines hold into the first places and answers how many there are,
/// or names the first line that the format refuses and leaves the places.
pub fn take_items<O: HoldsItems>(places: &mut [u64], from: &[Line]) -> Result<usize, NotAState>
    requires most { length places.old ≤ MOST_SIZE }
    requires count { length from.now ≡ (length places.old + 7) / 8 + 1 }
    ensures { MatchResult result (λ count. TakesItems O.IsPlace places.new count from.now)
        (λ refused. IsFirstRefused O.kind (length places.old) from.now refused.line × (places.new ≡ places.old)) }
{
    if let Some(line) = first_refused::<O>(places.len(), from) {
        return Err(NotAState { line });
    }
    read_items(from, places);
    Ok(count_in(from) as usize)
}

fn first_refused<O: HoldsItems>(size: usize, from: &[Line]) -> Option<u32>
    requires least { 1 ≤ length from.now }
    requires most { length from.now ≤ MOST_SIZE }
    ensures { MatchOption result
        ((line : ℕ) → line < length from.now → IsItemLine O.IsPlace size from.now line)
        (λ line. IsFirstRefused O.kind size from.now line) }
{
    if !is_count_line(size, &from[0]) {
        return Some(0);
    }
    for place in 0..8 * (from.len() - 1) {
        if !O::is_place(from, place) {
            return Some((place / 8 + 1) as u32);
        }
    }
    None
}
