//! The laws of settling: to what the device holds, and to the state after a round in doubt.
ghost use Rattle.std.specs.Prelude.{◌≡◌, ◌⊎◌, ℕ, ◌≤◌, List, [], ◌∷◌, ◌++◌, All, length, Option, Some};
ghost use Rattle.pb_pmem.specs.declared.line.Line.{Line};
ghost use Rattle.pb_pmem.specs.declared.log.LogOp.{LogOp};
ghost use Rattle.pb_pmem.specs.Contents.{contents};
ghost use Rattle.pb_pmem.specs.Operations.{IsFailedPrefix};
ghost use Rattle.pb_object.specs.History.{Round, after_round};
ghost use Rattle.pb_object.specs.Standing.{Standing};
ghost use Rattle.pb_layout.specs.declared.header.Header.{Header};
ghost use Rattle.pb_layout.specs.Doubt.{either_state, IsRoundInDoubt, HasRoundLanded, IsExitInDoubt};
ghost use Rattle.pb_layout.specs.Exits.{ImagesAlwaysRepresent, IsExit, sealed_round};
ghost use Rattle.pb_layout.specs.LogHistory.{AreSealed, history_of};
ghost use Rattle.pb_layout.specs.Ready.{IsAllowed, IsReady};
ghost use Rattle.pb_layout.specs.RegionOps.{settle_ops, settle_to};
ghost use Rattle.pb_layout.specs.Recovered.{Represents};
ghost use Rattle.pb_layout.specs.Represents.{header_for};

/// Settling that is cut off anywhere leaves what the device may be found with, and records no round.
pub fn settling_failing()
    ensures { (base : List Line) (log ops : List LogOp) (s : Standing) (members : List (Option Standing))
        → IsReady base log members
        → Represents (contents base log) s
        → IsFailedPrefix (settle_to (header_for s) s) ops
        → IsExit base log ops s [] members }
{}

/// Settling leaves what the device holds, alone.
pub fn settling_leaves_one()
    ensures { (base : List Line) (log : List LogOp) (s : Standing) (members : List (Option Standing))
        → IsReady base log members
        → Represents (contents base log) s
        → IsExit base log (settle_to (header_for s) s) s [] (Some s ∷ []) }
{}

/// Settling that is cut off anywhere or whole, on a device that is ready with one standing alone, leaves each image representing it. So
/// opening may be stopped and repeated.
pub fn settling_may_be_repeated()
    ensures { (base : List Line) (log ops : List LogOp) (s : Standing)
        → IsReady base log (Some s ∷ [])
        → IsFailedPrefix (settle_to (header_for s) s) ops ⊎ (ops ≡ settle_to (header_for s) s)
        → ImagesAlwaysRepresent base log ops s }
{}

/// Settling seals every round that the log told, to whichever numbers it settles.
pub fn settling_seals_all()
    ensures { (base : List Line) (log : List LogOp) (head : Header) (first second from : ℕ)
        → from ≤ length log
        → AreSealed (history_of base (log ++ settle_ops head first second) from) }
{}

/// A round in doubt that whatever is allowed was done to has landed, or is in doubt still and was not told.
pub fn doubt_is_kept()
    ensures { (base : List Line) (log ops : List LogOp) (s : Standing) (round : Round)
        → IsRoundInDoubt base log s round
        → All (IsAllowed (either_state s round)) ops
        → IsRoundInDoubt base (log ++ ops) s round ⊎ HasRoundLanded base (log ++ ops) s round }
{}

/// Settling to the state after a round in doubt tells that round, sealed, and leaves its state alone.
pub fn settling_doubt_tells_the_round()
    ensures { (base : List Line) (log : List LogOp) (s : Standing) (round : Round)
        → IsRoundInDoubt base log s round
        → IsExit base log (settle_to (header_for s) (after_round s round)) s (sealed_round round ∷ []) (Some (after_round s round) ∷ []) }
{}

/// Where it is cut off anywhere, nothing is told and the round is still in doubt, or it is told and has landed.
pub fn settling_doubt_failing()
    ensures { (base : List Line) (log ops : List LogOp) (s : Standing) (round : Round)
        → IsRoundInDoubt base log s round
        → IsFailedPrefix (settle_to (header_for s) (after_round s round)) ops
        → IsExitInDoubt base log ops s round }
{}

/// Settling to the state after a round that has landed tells no round, and leaves that state alone.
pub fn settling_landed_leaves_one()
    ensures { (base : List Line) (log : List LogOp) (s : Standing) (round : Round)
        → HasRoundLanded base log s round
        → IsExit base log (settle_to (header_for s) (after_round s round)) (after_round s round) [] (Some (after_round s round) ∷ []) }
{}

/// Where it is cut off anywhere, no round is told, ..
pub fn settling_landed_failing()
    ensures { (base : List Line) (log ops : List LogOp) (s : Standing) (round : Round)
        → HasRoundLanded base log s round
        → IsFailedPrefix (settle_to (header_for s) (after_round s round)) ops
        → IsExit base log ops (after_round s round) [] (either_state s round) }
{}

/// .. and the round has landed still.
pub fn landed_stays_landed()
    ensures { (base : List Line) (log ops : List LogOp) (s : Standing) (round : Round)
        → HasRoundLanded base log s round
        → IsFailedPrefix (settle_to (header_for s) (after_round s round)) ops
        → HasRoundLanded base (log ++ ops) s round }
{}

/// A call that left a round in doubt, and then settling to the state after it: that round is told, sealed, and its state is left alone,
/// whether the round had landed or not.
pub fn settling_after_doubt()
    ensures { (base : List Line) (log ops : List LogOp) (s : Standing) (round : Round)
        → IsExitInDoubt base log ops s round
        → IsExit base log (ops ++ settle_to (header_for s) (after_round s round)) s
        (sealed_round round ∷ []) (Some (after_round s round) ∷ []) }
{}

/// Settling that fails once more leaves the round in doubt once more.
pub fn settling_after_doubt_failing()
    ensures { (base : List Line) (log ops more : List LogOp) (s : Standing) (round : Round)
        → IsExitInDoubt base log ops s round
        → IsFailedPrefix (settle_to (header_for s) (after_round s round)) more
        → IsExitInDoubt base log (ops ++ more) s round }
{}
