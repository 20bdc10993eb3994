//! Applying the requests of a round, and writing the record that it stores.
ghost use Rattle.std.specs.Prelude.{◌≡◌, length};
ghost use Rattle.pb_object.specs.declared.kind.Kind.TheVariants.{Queue};
ghost use Rattle.pb_object.specs.Object.{Waits};
ghost use Rattle.pb_layout.specs.Header.{record_length};
ghost use Rattle.pb_layout.specs.NextRecord.{IsNextOf};
ghost use Rattle.pb_layout.specs.Represents.{AreRecords};
ghost use Rattle.pb_pair.specs.View.{IsPair, lines_of};
ghost use Rattle.pb_engine.specs.Asks.{MayBeServed, side_asked, answered_from, asked_round};
ghost use Rattle.pb_engine.specs.Next.{PutsEntries};
ghost use Rattle.pb_queue.specs.Items.{IsBounded};
ghost use Rattle.pb_queue.specs.Serving.{AreServable, HasServed, count_of};
ghost use Rattle.pb_queue.specs.Standing.{standing_of};

use crate::items::Items;
use pb_engine::NextRecord;
use pb_object::{Ask, Kept};
use pb_pair::Pair;
use pb_pmem::{Line, Pmem};

/// Applies the requests of a round to the items, and writes the lines of the record that the round
/// stores: those of the record in use with the next round number, each request in front of its
/// client's slots, and the side's count.
///
/// What is known of the items for sure stays.
pub fn prepare<P: Pmem>(
    pair: &Pair<P>,
    side: u32,
    asks: &[Ask],
    items: &mut Items,
    next: &mut NextRecord,
)
    requires sound { IsPair pair.now }
    requires queue { pair.now.head.kind ≡ Queue }
    requires records { AreRecords (lines_of pair.now) (standing_of pair.now items.old.sure) }
    requires none { items.old.next ≡ items.old.sure }
    requires size { items.old.size ≡ pair.now.head.size }
    requires asks { MayBeServed (standing_of pair.now items.old.sure) asks.now }
    requires side { side ≡ side_asked asks.now }
    requires long { length next.old ≡ record_length pair.now.head }
    ensures items { HasServed side asks.now items.old items.new }
    ensures bounded { IsBounded items.new.size items.new.next }
    ensures lines { let s = standing_of pair.now items.old.sure in
        IsNextOf (lines_of pair.now) s (asked_round s asks.now) next.new }
{
    let before = pair.lines_of(side);
    next.begin(before, pair.round(side) + 1);
    serve(side, asks, before, items, next);
    next.put_count(count(side, items));
}

fn count(side: u32, items: &Items) -> u64
    ensures count { result ≡ count_of side items.now.next }
    ensures bounded { IsBounded items.now.size items.now.next }
{
    let tail = items.next_tail();
    if side == 0 { tail } else { items.next_head() }
}

// Applies the requests of a side one after the other, and puts each with its reply in front of its
// client's slots of the record before.
fn serve(side: u32, asks: &[Ask], before: &[Line], items: &mut Items, next: &mut NextRecord)
    requires before { AreServable side before.now asks.now }
    requires room { AreServable side next.old asks.now }
    requires none { items.old.next ≡ items.old.sure }
    ensures items { HasServed side asks.now items.old items.new }
    ensures entries { PutsEntries before.now (answered_from (Waits items.old.size items.old.sure) asks.now) next.old next.new }
{
    for ask in asks {
        let reply = items.apply(&ask.op);
        let kept = Kept {
            number: ask.number,
            op: ask.op,
            reply,
        };
        next.put(before, ask.client, &kept);
    }
}
