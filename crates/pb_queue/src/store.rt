//! Storing a round: its cells first, and then its record.
ghost use Rattle.std.specs.Prelude.{◌≡◌, ℕ, ◌<◌, ◌≤◌, OnOk, IfErr};
ghost use Rattle.pb_object.specs.Queue.{tail_of};
ghost use Rattle.pb_pair.specs.declared.known.Known.TheVariants.{Sure};
ghost use Rattle.pb_pair.specs.Cells.{IsFree};
ghost use Rattle.pb_pair.specs.Store.{IsNext};
ghost use Rattle.pb_pair.specs.View.{IsPair};
ghost use Rattle.pb_queue.specs.Rounds.{added, HavePut, HasFailedAmongCells, HasStoredRound, HasFailedRound};

use crate::items::Items;
use pb_pair::Pair;
use pb_pmem::{DeviceFault, Line, Pmem};

/// Stores a round: the items that were put since wait in their cells before the record counts them.
///
/// After an error the pair has failed. Among the cells nothing is in doubt; from there on the record
/// is.
pub fn store_round<P: Pmem>(
    pair: &mut Pair<P>,
    side: u32,
    items: &Items,
    lines: &[Line],
) -> Result<(), DeviceFault>
    requires sound { IsPair pair.old }
    requires sure { pair.old.known ≡ Sure }
    requires waits { items.now.next.taken ≤ tail_of items.now.sure }
    requires free { (position : ℕ) → tail_of items.now.sure ≤ position → position < tail_of items.now.next → IsFree pair.old position }
    requires next { IsNext pair.old side lines.now }
    ensures ok { OnOk result (HasStoredRound (tail_of items.now.sure) (added items.now) side lines.now pair.old pair.new) }
    ensures err { IfErr result
        (λ fault. HasFailedRound (tail_of items.now.sure) (added items.now) side lines.now pair.old fault pair.new) }
{
    put_cells(pair, items)?;
    pair.store(side, lines)
}

// Puts the items that aren't sure yet into their cells, in their order.
fn put_cells<P: Pmem>(pair: &mut Pair<P>, items: &Items) -> Result<(), DeviceFault>
    requires sound { IsPair pair.old }
    requires sure { pair.old.known ≡ Sure }
    requires waits { items.now.next.taken ≤ tail_of items.now.sure }
    requires free { (position : ℕ) → tail_of items.now.sure ≤ position → position < tail_of items.now.next → IsFree pair.old position }
    ensures ok { OnOk result (HavePut (tail_of items.now.sure) (added items.now) pair.old pair.new) }
    ensures err { IfErr result
        (λ fault. HasFailedAmongCells (tail_of items.now.sure) (added items.now) pair.old fault pair.new) }
{
    for position in items.tail()..items.next_tail() {
        pair.put_cell(position, items.next_item(position))?;
    }
    Ok(())
}
