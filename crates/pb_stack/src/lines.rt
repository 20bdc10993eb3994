//! What may stand at a place of a stack's object lines.
ghost use Rattle.std.specs.Prelude.{◌+◌, ◌/◌, ◌<◌, ◌↔◌, length, IsTrue};
ghost use Rattle.pb_object.specs.declared.kind.Kind.TheVariants.{Stack as StackKind};
ghost use Rattle.pb_object.specs.ItemLines.{IsStackPlace};

use crate::stack::Stack;
use pb_object::{HoldsItems, count_in, item_in};
use pb_pmem::Line;

impl HoldsItems for Stack {
    ghost kind = { StackKind };

    ghost IsPlace = { IsStackPlace };

    fn is_place(from: &[Line], place: usize) -> bool {
        (place as u64) < count_in(from) || item_in(from, place) == 0
    }

    ghost by_places = { λ size lines line. (λ allowed. allowed, λ allowed. allowed) };
}
