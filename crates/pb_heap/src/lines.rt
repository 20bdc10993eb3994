//! A heap's object lines, taken back and refused.
ghost use Rattle.std.specs.Prelude.{◌≡◌, ◌+◌, ◌/◌, ◌≤◌, length, take, MatchResult};
ghost use Rattle.pb_object.specs.declared.limits.TheConstants.{MOST_SIZE};
ghost use Rattle.pb_heap.specs.Order.{IsHeapOrdered};
ghost use Rattle.pb_object.specs.declared.kind.Kind.TheVariants.{Heap};
ghost use Rattle.pb_object.specs.ItemLines.{IsHeapPlace, TakesItems};
ghost use Rattle.pb_object.specs.ObjectLines.{IsFirstRefused};

use crate::min_heap::MinHeap;
use pb_object::{HoldsItems, Kind, NotAState, count_in, item_in, take_items};
use pb_pmem::Line;

impl HoldsItems for MinHeap {
    ghost kind = { Heap };

    ghost IsPlace = { IsHeapPlace };

    fn is_place(from: &[Line], place: usize) -> bool {
        let item = item_in(from, place);
        if place as u64 >= count_in(from) {
            item == 0
        } else {
            place == 0 || item_in(from, (place - 1) / 2) <= item
        }
    }

    ghost by_places = { λ size lines line. (λ allowed. allowed, λ allowed. allowed) };
}

/// Takes items as `take_items` does. Those that allowed lines hold are in heap order.
#[tactic(auto, using(crate::proofs::LinesLemmas::taken_is_ordered))]
pub fn take_ordered(places: &mut [u64], from: &[Line]) -> Result<usize, NotAState>
    requires most { length places.old ≤ MOST_SIZE }
    requires count { length from.now ≡ (length places.old + 7) / 8 + 1 }
    ensures { MatchResult result
        (λ len. TakesItems IsHeapPlace places.new len from.now × IsHeapOrdered (take len places.new))
        (λ refused. IsFirstRefused Kind.Heap (length places.old) from.now refused.line × (places.new ≡ places.old)) }
{
    take_items::<MinHeap>(places, from)
}
