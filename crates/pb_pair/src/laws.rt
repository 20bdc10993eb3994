//! What opening, storing and settling come to, one after the other. These functions are here for their contracts.
ghost use Rattle.std.specs.Prelude.{◌≡◌, ◌⊎◌, ℕ, ◌+◌, ◌<◌, Option, Some, None, List, [], ◌∷◌, true, false};
ghost use Rattle.pb_pmem.specs.declared.device.DeviceFault.{DeviceFault};
ghost use Rattle.pb_pmem.specs.declared.line.Line.{Line};
ghost use Rattle.pb_pmem.specs.Device.{Device, Tale};
ghost use Rattle.pb_pmem.specs.Operations.{IsFailedPrefix, Does, Stops};
ghost use Rattle.pb_object.specs.History.{Round, IsLegalRound, after_round};
ghost use Rattle.pb_object.specs.Standing.{Standing, side_count, rounds_of};
ghost use Rattle.pb_layout.specs.Recovered.{Represents};
ghost use Rattle.pb_layout.specs.Represents.{header_for, record_in_use, record_of_side};
ghost use Rattle.pb_layout.specs.ToldExits.{contents_of, IsReadyWith, StaysFound};
ghost use Rattle.pb_pair.specs.declared.why.Why.{Why};
ghost use Rattle.pb_pair.specs.declared.why.Why.TheVariants.{Memory, Device as DeviceWhy};
ghost use Rattle.pb_pair.specs.Cells.{IsNothing};
ghost use Rattle.pb_layout.specs.PutCell.{put_ops};
ghost use Rattle.pb_pair.specs.Open.{IsOpened, IsOpenRefusal};
ghost use Rattle.pb_pair.specs.Safe.{IsPairOf, IsStoreOf, IsDoubtOf};
ghost use Rattle.pb_pair.specs.Settle.{IsSettled, settled_ops, was_called};
ghost use Rattle.pb_pair.specs.Store.{IsNext, IsStored, HasFailedStore};
ghost use Rattle.pb_pair.specs.View.{DoubtView, PairView, lines_of, IsPair, HasFailed};

/// Opening refuses a device that represents a standing only for want of memory or by a fault.
pub fn what_stands_is_opened()
    ensures { (old new : Device) (why : Why) (lines : List Line) (s : Standing)
        → IsOpenRefusal old new why
        → old.now ≡ Some lines
        → Represents lines s
        → (why ≡ Memory) ⊎ ((fault : DeviceFault) × (why ≡ DeviceWhy fault)) }
{}

/// What opening finds on it is a pair of that standing.
pub fn opening_finds_what_stands()
    ensures { (device : Device) (pair : PairView) (lines : List Line) (s : Standing)
        → IsOpened device pair
        → device.now ≡ Some lines
        → Represents lines s
        → IsPairOf pair s }
{}

/// A device that tells its log holds the records in use of a pair, whatever the pair did last: they are those of the standing. And where
/// the index word of a record in doubt was called, that is the spare record of its side.
pub fn records_are_held()
    ensures in_use { (pair : PairView) (s : Standing) (tale : Tale) (side : ℕ)
        → IsPair pair
        → IsPairOf pair s
        → pair.device.told ≡ Some tale
        → side < side_count pair.head.kind
        → lines_of pair side ≡ record_of_side (contents_of tale) s side }
    ensures in_doubt { (pair : PairView) (s : Standing) (tale : Tale) (doubt : DoubtView)
        → IsPair pair
        → IsPairOf pair s
        → pair.device.told ≡ Some tale
        → pair.doubt ≡ Some doubt
        → doubt.called ≡ true
        → doubt.lines ≡ record_in_use (contents_of tale) (header_for s) doubt.side (rounds_of s doubt.side + 1) }
{}

/// Settling such a pair, wherever it stops, leaves each image representing that standing: so opening may be stopped and repeated.
pub fn settling_keeps_what_was_found()
    ensures { (old : PairView) (new : Device) (tale : Tale) (s : Standing)
        → old.device.told ≡ Some tale
        → IsReadyWith (Some s ∷ []) tale
        → IsPairOf old s
        → was_called old.doubt ≡ false
        → Does (settled_ops old) old.device new ⊎ Stops (IsFailedPrefix (settled_ops old)) old.device new
        → StaysFound tale new s }
{}

/// A pair that stored a round's record is one of the state after the round.
pub fn storing_moves_on()
    ensures { (old new : PairView) (side : ℕ) (lines : List Line) (s : Standing) (round : Round) (tale : Tale)
        → IsNext old side lines
        → IsStored side lines old new
        → IsStoreOf old side lines s round tale
        → IsPairOf new (after_round s round) }
{}

/// A store that failed from its index word on has its round in doubt.
pub fn failed_store_is_in_doubt()
    ensures { (old new : PairView) (side : ℕ) (lines : List Line) (fault : DeviceFault) (s : Standing) (round : Round) (tale : Tale)
        → HasFailedStore side lines old fault new
        → IsStoreOf old side lines s round tale
        → was_called new.doubt ≡ true
        → IsDoubtOf new s round }
{}

/// A pair whose call failed is one of the same standing still. A failed read of a cell leaves in doubt what was so.
pub fn failed_calls_keep_the_standing()
    ensures read { (old new : PairView) (fault : DeviceFault) (s : Standing)
        → HasFailed IsNothing old.doubt old fault new
        → IsPairOf old s
        → IsPairOf new s }
    ensures read_in_doubt { (old new : PairView) (fault : DeviceFault) (s : Standing) (round : Round)
        → HasFailed IsNothing old.doubt old fault new
        → IsDoubtOf old s round
        → IsDoubtOf new s round }
    ensures put { (old new : PairView) (fault : DeviceFault) (s : Standing) (position value : ℕ)
        → HasFailed (IsFailedPrefix (put_ops old.head position value)) None old fault new
        → IsPairOf old s
        → IsPairOf new s }
    ensures store { (old new : PairView) (fault : DeviceFault) (s : Standing) (side : ℕ) (lines : List Line)
        → HasFailedStore side lines old fault new
        → IsPairOf old s
        → IsPairOf new s }
{}

/// Where settling fails, the pair is one of the same standing, and the same is in doubt still: so it may be tried again.
pub fn settling_may_be_tried_again()
    ensures of { (old new : PairView) (fault : DeviceFault) (s : Standing)
        → HasFailed (IsFailedPrefix (settled_ops old)) old.doubt old fault new
        → IsPairOf old s
        → IsPairOf new s }
    ensures in_doubt { (old new : PairView) (fault : DeviceFault) (s : Standing) (round : Round)
        → HasFailed (IsFailedPrefix (settled_ops old)) old.doubt old fault new
        → IsDoubtOf old s round
        → IsDoubtOf new s round }
{}

/// Settling it makes the pair one of the state after the round; where no index word was called, the pair stays one of its standing.
pub fn settling_decides()
    ensures decided { (old new : PairView) (s : Standing) (round : Round) (lines : List Line)
        → IsSettled old new
        → IsDoubtOf old s round
        → Represents lines s ⊎ Represents lines (after_round s round)
        → IsLegalRound s round
        → IsPairOf new (after_round s round) }
    ensures found { (old new : PairView) (s : Standing)
        → IsSettled old new
        → IsPairOf old s
        → was_called old.doubt ≡ false
        → IsPairOf new s }
{}
