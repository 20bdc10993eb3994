//! Heap order: an item is added, and a least one is taken away.
ghost use Rattle.std.specs.Prelude.{◌≡◌, ◌+◌, ◌-◌, ◌*◌, ◌<◌, ◌≤◌, Some, length, take, drop, slice_get, slice_index};
ghost use Rattle.pb_object.specs.declared.limits.TheConstants.{MOST_SIZE};
ghost use Rattle.pb_heap.specs.Order.{IsHeapOrdered, IsOrderedButBelow, IsLeastChild};
ghost use Rattle.pb_object.specs.Heap.{rising_of, insert_rising};
ghost use Rattle.std.specs.List.Sorted.{IsPermutation};

/// Adds an item to the first so many places.
pub fn add_item(places: &mut [u64], len: usize, item: u64)
    requires room { len < length places.old }
    requires ordered { IsHeapOrdered (take len places.old) }
    ensures ordered { IsHeapOrdered (take (len + 1) places.new) }
    ensures rising { rising_of (take (len + 1) places.new) ≡ insert_rising item (rising_of (take len places.old)) }
{
    places[len] = item;
    sift_up(&mut places[..len + 1]);
}

/// Takes a least item away from the first so many places.
pub fn remove_least(places: &mut [u64], len: usize)
    requires some { 0 < len }
    requires within { len ≤ length places.old }
    requires most { len ≤ MOST_SIZE }
    requires ordered { IsHeapOrdered (take len places.old) }
    ensures ordered { IsHeapOrdered (take (len - 1) places.new) }
    ensures rising { rising_of (take (len - 1) places.new) ≡ drop 1 (rising_of (take len places.old)) }
{
    remove_first(&mut places[..len]);
}

fn remove_first(items: &mut [u64])
    requires some { 0 < length items.old }
    requires most { length items.old ≤ MOST_SIZE }
    requires ordered { IsHeapOrdered items.old }
    ensures ordered { IsHeapOrdered (take (length items.old - 1) items.new) }
    ensures rising { rising_of (take (length items.old - 1) items.new) ≡ drop 1 (rising_of items.old) }
{
    let last = items.len() - 1;
    items.swap(0, last);
    sift_down(&mut items[..last]);
}

/// The first item of those in heap order is a least one.
pub fn least_item(items: &[u64]) -> u64
    requires some { 0 < length items.now }
    requires ordered { IsHeapOrdered items.now }
    ensures { slice_get (rising_of items.now) 0 ≡ Some result }
{
    items[0]
}

// Moves the last item up until no item is less than its parent.
fn sift_up(items: &mut [u64])
    requires some { 0 < length items.old }
    requires ordered { IsHeapOrdered (take (length items.old - 1) items.old) }
    ensures ordered { IsHeapOrdered items.new }
    ensures same { IsPermutation items.old items.new }
{
    let mut place = items.len() - 1;
    while place > 0 {
        let parent = (place - 1) / 2;
        if items[parent] <= items[place] {
            return;
        }
        items.swap(parent, place);
        place = parent;
    }
}

// Moves the first item down until no item is less than its parent.
fn sift_down(items: &mut [u64])
    requires most { length items.old ≤ MOST_SIZE }
    requires ordered { IsOrderedButBelow items.old 0 }
    ensures ordered { IsHeapOrdered items.new }
    ensures same { IsPermutation items.old items.new }
{
    let mut place = 0;
    while 2 * place + 1 < items.len() {
        let child = least_child(items, place);
        if items[place] <= items[child] {
            return;
        }
        items.swap(place, child);
        place = child;
    }
}

fn least_child(items: &[u64], place: usize) -> usize
    requires { 2 * place + 1 < length items.now }
    ensures { IsLeastChild items.now place result }
{
    let left = 2 * place + 1;
    let right = left + 1;
    if right < items.len() && items[right] < items[left] {
        right
    } else {
        left
    }
}
