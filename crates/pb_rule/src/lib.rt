//! The words that threads share, the rule over them, and each step on a word.
#![tactic(auto)]

pub mod asking;
mod board;
pub mod engines;
pub mod holding;
pub mod opening;
mod places;
mod plays;
pub mod taking;
pub mod waiting;

pub use board::{Board, Place, Rule, Views};
pub use places::{FAULTS, TURN, held, request_word, round_of, row_word, words};
