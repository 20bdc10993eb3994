//! The laws of stores: by any writes that put the next record in its place.
ghost use Rattle.std.specs.Prelude.{◌≡◌, ℕ, ◌+◌, ◌≤◌, List, [], ◌∷◌, ◌++◌, All, length, Some};
ghost use Rattle.pb_pmem.specs.declared.line.Line.{Line};
ghost use Rattle.pb_pmem.specs.declared.log.LogOp.{LogOp};
ghost use Rattle.pb_pmem.specs.Contents.{contents};
ghost use Rattle.pb_pmem.specs.Operations.{writes_from, IsFailedPrefix};
ghost use Rattle.pb_object.specs.History.{Round, after_round};
ghost use Rattle.pb_object.specs.Standing.{Standing, rounds_of};
ghost use Rattle.pb_layout.specs.Doubt.{IsExitOfCommit};
ghost use Rattle.pb_layout.specs.Exits.{IsExit, sealed_round};
ghost use Rattle.pb_layout.specs.Header.{record_length};
ghost use Rattle.pb_layout.specs.LogHistory.{AreSealed, history_of};
ghost use Rattle.pb_layout.specs.NextRecord.{IsNextRecord, HasCells};
ghost use Rattle.pb_layout.specs.Ready.{IsReady};
ghost use Rattle.pb_layout.specs.RegionOps.{spare_place, stage_by, commit_ops, store_by};
ghost use Rattle.pb_layout.specs.Represents.{header_for};
ghost use Rattle.pb_layout.specs.Stages.{IsStagingOp, StagesRecord};

/// Writes of all lines put a record in its place.
pub fn writing_all_lines_stages()
    ensures { (first : ℕ) (lines before : List Line)
        → first + length lines ≤ length before
        → StagesRecord first lines before (writes_from first lines) }
{}

/// A store that is cut off before its index word is called leaves the standing as it was, whatever it wrote into the spare record.
pub fn store_failing_while_staging()
    ensures { (base : List Line) (log writes ops : List LogOp) (s : Standing) (side : ℕ)
        → IsReady base log (Some s ∷ [])
        → All (IsStagingOp (spare_place (header_for s) side (rounds_of s side)) (record_length (header_for s))) writes
        → IsFailedPrefix (stage_by writes (header_for s) side (rounds_of s side)) ops
        → IsExit base log ops s [] (Some s ∷ []) }
{}

/// A store that is cut off from its index word on leaves its round in doubt.
pub fn store_failing_while_committing()
    ensures { (base : List Line) (log writes tail : List LogOp) (s : Standing) (round : Round) (lines : List Line)
        → IsReady base log (Some s ∷ [])
        → IsNextRecord (contents base log) s round lines
        → HasCells base log s round
        → StagesRecord (spare_place (header_for s) round.side (rounds_of s round.side)) lines (contents base log) writes
        → IsFailedPrefix (commit_ops round.side (rounds_of s round.side + 1)) tail
        → IsExitOfCommit base log (stage_by writes (header_for s) round.side (rounds_of s round.side) ++ tail) tail s round }
{}

/// A whole store seals its round: its entries are those in which the record differs from the one before.
pub fn store_seals_its_round()
    ensures { (base : List Line) (log writes : List LogOp) (s : Standing) (round : Round) (lines : List Line)
        → IsReady base log (Some s ∷ [])
        → IsNextRecord (contents base log) s round lines
        → HasCells base log s round
        → StagesRecord (spare_place (header_for s) round.side (rounds_of s round.side)) lines (contents base log) writes
        → IsExit base log (store_by writes (header_for s) round.side (rounds_of s round.side)) s
        (sealed_round round ∷ []) (Some (after_round s round) ∷ []) }
{}
