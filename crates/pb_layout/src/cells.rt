//! A queue's cell: an item with its position.
ghost use Rattle.std.specs.Prelude.{◌≡◌, MatchOption};
ghost use Rattle.pb_layout.specs.Cell.{cell_line_of, IsCell};

use pb_pmem::Line;

/// The cell of a position that holds this value.
pub fn cell(position: u64, value: u64) -> Line
    ensures { result ≡ cell_line_of position value }
{
    Line {
        words: [position, value, 0, 0, 0, 0, 0, 0],
    }
}

/// The value that a position's cell holds. None comes exactly where the line isn't the cell of this position with some value.
pub fn cell_of(position: u64, line: &Line) -> Option<u64>
    ensures { MatchOption result (¬ IsCell position line.now) (λ value. line.now ≡ cell_line_of position value) }
{
    let value = line.words[1];
    if *line == cell(position, value) {
        Some(value)
    } else {
        None
    }
}
