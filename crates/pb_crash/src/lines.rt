//! Operations done to lines.
ghost use Rattle.std.specs.Prelude.{◌≡◌, ◌+◌, ◌<◌, ◌≤◌, ◌++◌, length, slice_set, IsTrue, vec_capacity, option_to_list};
ghost use Rattle.std.specs.List.{list_all};
ghost use Rattle.pb_pmem.specs.declared.line.TheConstants.{LINES};
ghost use Rattle.pb_pmem.specs.Contents.{applied, contents};
ghost use Rattle.pb_pmem.specs.Lines.{with_word, line_at};
ghost use Rattle.pb_crash.specs.Leaves.{filled};
ghost use Rattle.pb_crash.specs.Within.{is_within};

use pb_pmem::{Line, LogOp};

/// The line with a number in each word.
pub fn filled(value: u64) -> Line
    ensures { result ≡ filled value }
{
    Line { words: [value; 8] }
}

/// Writes one word of a line.
fn set_word(lines: &mut [Line], line: u32, word: u32, value: u64)
    requires line { line < length lines.old }
    requires word { word < 8 }
    ensures { lines.new ≡ slice_set lines.old line (with_word (line_at lines.old line) word value) }
{
    let line = &mut lines[line as usize];
    line.words[word as usize] = value;
}

/// Does an operation to the lines.
pub fn apply(lines: &mut [Line], op: &LogOp)
    requires whole { length lines.old ≡ LINES }
    requires within { IsTrue (is_within op.now) }
    ensures { lines.new ≡ applied op.now lines.old }
{
    match *op {
        LogOp::Whole { line, to } => lines[line as usize] = to,
        LogOp::Word { line, word, to } => set_word(lines, line, word, to),
        LogOp::Back { .. } => {}
        LogOp::Fence => {}
        LogOp::Sync => {}
    }
}

/// Adds an operation, where there is one, to the log, which has room for it, and does it to the lines.
pub fn add(lines: &mut Vec<Line>, log: &mut Vec<LogOp>, added: Option<LogOp>)
    requires whole { length lines.old.items ≡ LINES }
    requires within { IsTrue (list_all is_within (option_to_list added)) }
    requires room { length log.old.items + length (option_to_list added) ≤ vec_capacity log.old }
    ensures lines { lines.new.items ≡ contents lines.old.items (option_to_list added) }
    ensures log { log.new.items ≡ log.old.items ++ option_to_list added }
    ensures capacity { vec_capacity log.old ≤ vec_capacity log.new }
{
    if let Some(op) = added {
        apply(lines, &op);
        let _ = log.push(op);
    }
}
