//! What holds of all lines, and of what is written and read again. These functions are here for their contracts.
ghost use Rattle.std.specs.Prelude.{◌≡◌, ℕ, ◌+◌, ◌*◌, ◌<◌, ◌≤◌, List, [], ◌∷◌, ◌++◌, All, length, Option, Some, Ok};
ghost use Rattle.pb_pmem.specs.declared.line.Line.{Line};
ghost use Rattle.pb_pmem.specs.declared.log.LogOp.{LogOp};
ghost use Rattle.pb_pmem.specs.Contents.{contents};
ghost use Rattle.pb_pmem.specs.Crash.{IsAtRest};
ghost use Rattle.pb_object.specs.declared.request.TheConstants.{LAST_NUMBER};
ghost use Rattle.pb_object.specs.History.{History, IsLegal, state_after};
ghost use Rattle.pb_object.specs.KeptLists.{HasKeptLists};
ghost use Rattle.pb_object.specs.Standing.{Standing, side_count, rounds_of};
ghost use Rattle.pb_layout.specs.ClientLine.{IsKept};
ghost use Rattle.pb_layout.specs.Shape.{IsHeader};
ghost use Rattle.pb_layout.specs.Laws.{RepresentsOne, HasOneRecovery};
ghost use Rattle.pb_layout.specs.LogHistory.{history_of};
ghost use Rattle.pb_layout.specs.Once.{HasNumbersOnce, numbers_of};
ghost use Rattle.pb_layout.specs.Ready.{ImageRepresents, IsAllowed, IsReady};
ghost use Rattle.pb_layout.specs.Record.{number_sum};
ghost use Rattle.pb_layout.specs.Recovered.{Represents};
ghost use Rattle.pb_layout.specs.Represents.{record_of_side};
ghost use Rattle.pb_object.specs.declared.limits.TheConstants.{MOST_CLIENTS};
ghost use Rattle.pb_layout.specs.HistoryByPlaces.{TellsByPlaces};

use crate::cells::{cell, cell_of};
use crate::client::{client_line, client_of};
use crate::fault::LayoutFault;
use crate::header::{Header, header_line, header_of};
use pb_object::{Kept, Kind};
use pb_pmem::{LINES, Line};

/// A header's line is read as that header.
pub fn header_again(head: &Header) -> Result<Header, LayoutFault>
    ensures { result ≡ Ok head.now }
{
    header_of(&header_line(head))
}

/// The line of what may be kept of a client is read as that.
pub fn client_again(kind: Kind, side: u32, kept: &Kept) -> Option<Kept>
    requires { IsKept kind side kept.now }
    ensures { result ≡ Some kept.now }
{
    client_of(kind, side, &client_line(kept))
}

/// The cell of a position and a value is read as that value.
pub fn cell_again(position: u64, value: u64) -> Option<u64>
    ensures { result ≡ Some value }
{
    cell_of(position, &cell(position, value))
}

/// Lines represent one standing at most.
pub fn one_standing(image: &[Line])
    ensures { RepresentsOne image.now }
{}

/// What a device holds is a function of its lines: there is no region, or it is damaged at one line, or it represents one standing.
pub fn one_recovery(image: &[Line])
    requires { length image.now ≡ LINES }
    ensures { HasOneRecovery image.now }
{}

/// The history of a log is the one that its places tell: a round for each index word that raises its side's round number.
pub fn history_by_places()
    ensures { (base : List Line) (log : List LogOp) (from : ℕ)
        → from ≤ length log
        → TellsByPlaces base log from (history_of base log from) }
{}

/// A device at rest is ready with what it represents, alone.
pub fn at_rest_is_ready()
    ensures { (base : List Line) (log : List LogOp) (member : Option Standing)
        → IsAtRest base log
        → ImageRepresents (contents base log) member
        → IsReady base log (member ∷ []) }
{}

/// Whatever may be done to a ready device leaves it as ready.
pub fn ready_is_kept()
    ensures { (base : List Line) (log more : List LogOp) (members : List (Option Standing))
        → IsReady base log members
        → All (IsAllowed members) more
        → IsReady base (log ++ more) members }
{}

/// In a legal history no client's number stands twice.
pub fn numbers_stand_once()
    ensures { (s : Standing) (history : History) → length s.kept ≡ s.clients → IsLegal s history → HasNumbersOnce history }
{}

/// A legal history has at most as many rounds as the clients' numbers rose by.
pub fn rounds_are_few()
    ensures { (s : Standing) (history : History)
        → length s.kept ≡ s.clients
        → IsLegal s history
        → length history + numbers_of s ≤ numbers_of (state_after s history) }
{}

/// What a region keeps of each client is a kept list: at most eight requests, whose numbers fall.
pub fn regions_keep_lists()
    ensures { (image : List Line) (s : Standing) → Represents image s → HasKeptLists s }
{}

/// A side of a region has at most as many rounds as the newest numbers in its slots sum to, and these sum to at most the clients' newest
/// numbers. Those of up to sixteen clients with kept lists, as a region has them, sum to at most sixteen last numbers.
pub fn numbers_are_few()
    ensures rounds { (image : List Line) (s : Standing) (side : ℕ)
        → Represents image s
        → side < side_count s.kind
        → rounds_of s side ≤ number_sum (record_of_side image s side) s.clients }
    ensures side { (image : List Line) (s : Standing) (side : ℕ)
        → Represents image s
        → side < side_count s.kind
        → number_sum (record_of_side image s side) s.clients ≤ numbers_of s }
    ensures all { (s : Standing) → HasKeptLists s → s.clients ≤ MOST_CLIENTS → numbers_of s ≤ MOST_CLIENTS * LAST_NUMBER }
    ensures region { (image : List Line) (s : Standing) → Represents image s → numbers_of s ≤ MOST_CLIENTS * LAST_NUMBER }
{}
