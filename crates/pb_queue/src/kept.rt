//! The kept requests of a queue's clients.
ghost use Rattle.std.specs.Prelude.{◌≡◌, ◌<◌, slice_index_or};
ghost use Rattle.pb_object.specs.declared.kind.Kind.TheVariants.{Queue};
ghost use Rattle.pb_object.specs.declared.request.TheConstants.{KEPT_REQUESTS};
ghost use Rattle.pb_object.specs.Request.{none_kept};
ghost use Rattle.pb_layout.specs.Represents.{kept_list};
ghost use Rattle.pb_pair.specs.View.{IsPair, lines_of};

use pb_layout::kept_of_both;
use pb_object::Kept;
use pb_pair::Pair;
use pb_pmem::Pmem;

/// The kept request at a place among those of a client, the newest first, whichever side it is of.
/// Number 0 means that there are no more.
///
/// It is read of the records in use, and takes no memory.
pub fn kept_at<P: Pmem>(pair: &Pair<P>, client: u32, place: u32) -> Kept
    requires sound { IsPair pair.now }
    requires queue { pair.now.head.kind ≡ Queue }
    requires client { client < pair.now.head.clients }
    requires place { place < KEPT_REQUESTS }
    ensures { result ≡ slice_index_or (kept_list pair.now.head (lines_of pair.now) client) place none_kept }
{
    kept_of_both(pair.lines_of(0), pair.lines_of(1), client, place)
}
