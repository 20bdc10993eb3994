//! Words and scripts: the command line, and the request lines of a source.
#![tactic(auto)]

mod command;
mod drill;
mod event;
mod print;
mod request;
mod script;
mod words;

pub use command::{Command, MOST_CLIENTS, MOST_SIZE, parse_words};
pub use drill::{DRILL_SIZE, generate};
pub use event::{EventLine, MOST_EVENTS, MOST_TIMES, Repeat, read_event_line};
pub use print::print_script;
pub use script::{MOST_REQUESTS, ScriptFault, is_short, parse_script};
pub use words::cut_line;
