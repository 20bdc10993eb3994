//! The laws of putting a queue's cells, before the round that puts their items.
ghost use Rattle.std.specs.Prelude.{◌≡◌, ◌≢◌, ℕ, List, [], ◌∷◌, ◌++◌, length, Some};
ghost use Rattle.pb_pmem.specs.declared.line.Line.{Line};
ghost use Rattle.pb_pmem.specs.declared.line.TheConstants.{LINES};
ghost use Rattle.pb_pmem.specs.declared.log.LogOp.{LogOp};
ghost use Rattle.pb_pmem.specs.Operations.{IsFailedPrefix};
ghost use Rattle.pb_object.specs.History.{Round, after_round};
ghost use Rattle.pb_object.specs.Standing.{Standing};
ghost use Rattle.pb_layout.specs.declared.header.Header.{Header};
ghost use Rattle.pb_layout.specs.Exits.{IsExit};
ghost use Rattle.pb_layout.specs.Shape.{IsHeader};
ghost use Rattle.pb_layout.specs.NextRecord.{next_position, HasCells};
ghost use Rattle.pb_layout.specs.PutCell.{put_cell_ops, IsFreePosition, HasCell, HaveCells};
ghost use Rattle.pb_layout.specs.Ready.{IsReady};
ghost use Rattle.pb_layout.specs.Region.{cell_place};
ghost use Rattle.pb_layout.specs.Represents.{header_for};

/// Putting the cell of a free position leaves the standing alone, and tells no round.
pub fn putting_a_cell()
    ensures { (base : List Line) (log : List LogOp) (s : Standing) (position : ℕ) (line : Line)
        → IsReady base log (Some s ∷ [])
        → IsFreePosition s.state position
        → IsExit base log (put_cell_ops (header_for s) position line) s [] (Some s ∷ []) }
{}

/// So it is where that is cut off anywhere.
pub fn putting_a_cell_failing()
    ensures { (base : List Line) (log ops : List LogOp) (s : Standing) (position : ℕ) (line : Line)
        → IsReady base log (Some s ∷ [])
        → IsFreePosition s.state position
        → IsFailedPrefix (put_cell_ops (header_for s) position line) ops
        → IsExit base log ops s [] (Some s ∷ []) }
{}

/// The cell is there then, given to the device.
pub fn put_cell_is_there()
    ensures { (base : List Line) (log : List LogOp) (head : Header) (position : ℕ) (line : Line)
        → IsHeader head
        → length base ≡ LINES
        → HasCell base (log ++ put_cell_ops head position line) head position line }
{}

/// And stays there while other cells are put.
pub fn put_cells_stay()
    ensures { (base : List Line) (log : List LogOp) (head : Header) (position other : ℕ) (line to : Line)
        → HasCell base log head position line
        → cell_place head other ≢ cell_place head position
        → HasCell base (log ++ put_cell_ops head other to) head position line }
{}

/// A round has its cells where each item that it puts has its cell.
pub fn cells_of_a_round()
    ensures { (base : List Line) (log : List LogOp) (s : Standing) (round : Round)
        → HaveCells base log (header_for s) (next_position s.state) (after_round s round).state
        → HasCells base log s round }
{}
