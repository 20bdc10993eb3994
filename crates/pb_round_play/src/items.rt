//! The object that makes a round's record. Between rounds its state stands in the record in use alone.
ghost use Rattle.std.specs.Prelude.{◌≡◌, ℕ, ◌+◌, ◌-◌, ◌*◌, ◌/◌, ◌<◌, ◌≤◌, List, length, slice_index, IfOk};
ghost use Rattle.pb_pmem.specs.Lines.{line_at};
ghost use Rattle.pb_object.specs.Heap.{rising_of};
ghost use Rattle.pb_object.specs.ItemLines.{count_in, item_in, HasOneWord, WordsRepresentItems};
ghost use Rattle.pb_object.specs.Object.{Rising};
ghost use Rattle.pb_object.specs.ObjectLines.{LinesRepresent};
ghost use Rattle.pb_round_play.specs.Items.{IsReadFrom};

use pb_heap::MinHeap;
use pb_map::RegMap;
use pb_object::{Kind, Object, put_items, read_items};
use pb_pmem::Line;
use pb_stack::Stack;
use std::alloc::{AllocError, Global};

/// Memory for an object of a kind. A queue needs none: its items lie in the cells of the device.
#[derive(Drop)]
pub enum Items {
    /// For a map.
    Map(RegMap),
    /// For a stack.
    Stack(Stack),
    /// For a heap, and for its items in rising order.
    Heap { heap: MinHeap, rising: Vec<u64> },
    /// For a queue.
    Queue,
}

impl Items {
    ghost use Rattle.pb_layout.specs.declared.header.Header.{Header};
    ghost use Rattle.pb_round_play.specs.Items.{ItemsFit};

    /// Memory for an object of a kind and a size.
    pub fn fresh(alloc: Global, kind: Kind, size: u32) -> Result<Self, AllocError>
        requires least { 1 ≤ size }
        requires most { size ≤ 1024 }
        ensures { (head : Header) → head.kind ≡ kind → head.size ≡ size → IfOk result (ItemsFit head) }
    {
        match kind {
            Kind::Map => Ok(Items::Map(RegMap::fresh(alloc, size)?)),
            Kind::Stack => Ok(Items::Stack(Stack::fresh(alloc, size)?)),
            Kind::Heap => {
                let rising = vec![in alloc; 0; size as usize]?;
                let heap = MinHeap::fresh(alloc, size)?;
                Ok(Items::Heap { heap, rising })
            }
            Kind::Queue => Ok(Items::Queue),
        }
    }
}

/// Writes a heap's items to its lines again, in rising order, with the help of as many places as the heap has.
pub fn write_rising(heap: &MinHeap, rising: &mut [u64], into: &mut [Line])
    requires places { length rising.old ≡ heap.now.size }
    requires stands { LinesRepresent into.old (Rising heap.now.size heap.now.items) }
    ensures stands { LinesRepresent into.new (Rising heap.now.size heap.now.items) }
    ensures rises { WordsRepresentItems into.new heap.now.items }
    ensures lines { length into.new ≡ length into.old }
    ensures places { length rising.new ≡ length rising.old }
{
    let len = heap.len() as usize;
    sort_items(rising.split_at_mut(len).0, into);
}

// Reads as many items as there are places, and writes them again in rising order.
fn sort_items(items: &mut [u64], into: &mut [Line])
    requires count_line { 0 < length into.old }
    requires room { length items.old ≤ 8 * (length into.old - 1) }
    ensures sorted { (read : List ℕ) → IsReadFrom into.old (length items.old) read → items.new ≡ rising_of read }
    ensures count { count_in into.new ≡ length items.old }
    ensures rest { HasOneWord (line_at into.new 0) }
    ensures written { (place : ℕ) → place / 8 + 1 < length into.new → item_in into.new place ≡ slice_index items.new place }
    ensures lines { length into.new ≡ length into.old }
    ensures places { length items.new ≡ length items.old }
{
    read_items(into, items);
    items.sort_unstable();
    put_items(items, into);
}
