//! The laws of crash safety, at the level of lists of operations. These functions are here for their contracts.
ghost use Rattle.std.specs.Prelude.{◌≡◌, ◌⊎◌, ◌↔◌, ℕ, ◌+◌, ◌*◌, ◌<◌, ◌≤◌, List, [], ◌∷◌, ◌++◌, All, length, Option, Some, None};
ghost use Rattle.pb_pmem.specs.declared.line.Line.{Line};
ghost use Rattle.pb_pmem.specs.declared.line.TheConstants.{LINES};
ghost use Rattle.pb_pmem.specs.declared.log.LogOp.{LogOp};
ghost use Rattle.pb_pmem.specs.Lines.{line_at, zero_line};
ghost use Rattle.pb_object.specs.declared.request.TheConstants.{LAST_NUMBER};
ghost use Rattle.pb_object.specs.History.{History, IsLegal};
ghost use Rattle.pb_object.specs.Standing.{Standing, rounds_of};
ghost use Rattle.pb_layout.specs.declared.header.Header.{Header};
ghost use Rattle.pb_object.specs.declared.limits.TheConstants.{MOST_CLIENTS};
ghost use Rattle.pb_layout.specs.Damage.{IsFirstNamed, region_checks};
ghost use Rattle.pb_layout.specs.Shape.{IsHeader};
ghost use Rattle.pb_layout.specs.Ready.{IsReady};
ghost use Rattle.pb_layout.specs.Recovered.{Represents};
ghost use Rattle.pb_pmem.specs.Operations.{IsFailedPrefix};
ghost use Rattle.pb_layout.specs.RegionOps.{prepare_ops, publish_ops, format_ops};
ghost use Rattle.pb_layout.specs.Exits.{AllImagesRepresent, IsExit, IsExitPublishing, AreEmptyRecords, empty_for};
ghost use Rattle.pb_layout.specs.InUse.{IsOutside};

pub mod calls;
pub mod cells;
pub mod settle;
pub mod store;

/// A device is ready with one standing alone where each image that a crash may leave represents it.
pub fn ready_with_one()
    ensures { (base : List Line) (log : List LogOp) (s : Standing)
        → IsReady base log (Some s ∷ []) ↔ AllImagesRepresent base log s }
{}

/// A device of zeros that nothing was done to is ready with no region alone.
pub fn fresh_device_is_ready()
    ensures { (base : List Line)
        → ((line : ℕ) → line_at base line ≡ zero_line)
        → IsReady base [] (None ∷ []) }
{}

/// Writes outside the lines in use change no image's standing.
pub fn unused_lines_change_nothing()
    ensures { (base : List Line) (log ops : List LogOp) (s : Standing)
        → AllImagesRepresent base log s
        → All (IsOutside s) ops
        → AllImagesRepresent base (log ++ ops) s }
{}

/// A call that writes outside the lines in use leaves the standing alone, and tells no round.
pub fn writing_unused_lines()
    ensures { (base : List Line) (log ops : List LogOp) (s : Standing)
        → IsReady base log (Some s ∷ [])
        → All (IsOutside s) ops
        → IsExit base log ops s [] (Some s ∷ []) }
{}

/// So does one that is cut off anywhere.
pub fn writing_unused_lines_failing()
    ensures { (base : List Line) (log all ops : List LogOp) (s : Standing)
        → IsReady base log (Some s ∷ [])
        → All (IsOutside s) all
        → IsFailedPrefix all ops
        → IsExit base log ops s [] (Some s ∷ []) }
{}

/// Formatting that is cut off before its magic is called leaves no region.
pub fn formatting_failing_while_preparing()
    ensures { (base : List Line) (log ops : List LogOp) (head : Header) (first second : List Line)
        → IsHeader head
        → length base ≡ LINES
        → AreEmptyRecords head first second
        → IsReady base log (None ∷ [])
        → IsFailedPrefix (prepare_ops head first second) ops
        → IsExit base log ops (empty_for head) [] (None ∷ []) }
{}

/// Formatting that is cut off from its magic on leaves no region, or an empty one.
pub fn formatting_failing_while_publishing()
    ensures { (base : List Line) (log tail : List LogOp) (head : Header) (first second : List Line)
        → IsHeader head
        → length base ≡ LINES
        → AreEmptyRecords head first second
        → IsReady base log (None ∷ [])
        → IsFailedPrefix publish_ops tail
        → IsExitPublishing base log (prepare_ops head first second ++ tail) tail head }
{}

/// Whole formatting leaves an empty region, alone.
pub fn formatting_makes_a_region()
    ensures { (base : List Line) (log : List LogOp) (head : Header) (first second : List Line)
        → IsHeader head
        → length base ≡ LINES
        → AreEmptyRecords head first second
        → IsReady base log (None ∷ [])
        → IsExit base log (format_ops head first second) (empty_for head) [] (Some (empty_for head) ∷ []) }
{}

/// Of lines that represent a standing the checks of a region refuse no line.
pub fn what_stands_is_not_damaged()
    ensures { (image : List Line) (s : Standing) (line : ℕ)
        → Represents image s
        → ¬ IsFirstNamed (region_checks image) line }
{}

/// A side of a region has at most as many rounds as sixteen clients have numbers, fewer than 2^60: each round recorded a request.
pub fn rounds_stay_small()
    ensures { (image : List Line) (s : Standing) (side : ℕ)
        → Represents image s
        → rounds_of s side ≤ MOST_CLIENTS * LAST_NUMBER }
{}

/// So the rounds of all sides, doubled and one more, are below 2^64.
pub fn rounds_fit_a_word()
    ensures { (image : List Line) (s : Standing)
        → Represents image s
        → 2 * (rounds_of s 0 + rounds_of s 1) + 1 < 18446744073709551616 }
{}

/// And a legal history has no more rounds than that, over both sides.
pub fn legal_histories_stay_small()
    ensures { (s : Standing) (history : History)
        → length s.kept ≡ s.clients
        → s.clients ≤ MOST_CLIENTS
        → IsLegal s history
        → length history ≤ MOST_CLIENTS * LAST_NUMBER }
{}
