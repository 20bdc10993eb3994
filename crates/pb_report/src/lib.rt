//! What the program says of a run: outcome lines and the summary of a drill, byte for byte. Texts of other crates are made of the same
//! lines, and leave in the same way.
//!
//! No call takes memory: text is kept back in a fixed buffer and leaves in pieces of some KiB.
#![tactic(auto)]

mod laws;
mod line;
mod outcome;
mod outcome_lines;
mod outcomes;
mod output;
mod summary;

pub use laws::{outcomes_are_one_but_for_doubt, texts_tell_outcomes_apart};
pub use line::{LINE, Text, push_number, push_op, push_reply, push_spaced};
pub use outcome::Outcome;
pub use outcomes::{write_outcome, write_outcomes};
pub use output::{Lines, send, write_lines, write_sections};
pub use summary::write_summary;
