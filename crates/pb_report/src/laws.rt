//! What lists of outcomes promise: each law is the contract of a function that does nothing.
ghost use Rattle.pb_report.specs.Laws.{AreOneUntilDoubt, AreOneWithoutDoubt, TextTells};

use crate::outcome::Outcome;
use pb_object::Ask;

/// A legal history has the outcomes of one list alone, but for doubts.
pub fn outcomes_are_one_but_for_doubt(asks: &[Ask], first: &[Outcome], second: &[Outcome])
    ensures until_doubt { AreOneUntilDoubt asks.now first.now second.now }
    ensures without_doubt { AreOneWithoutDoubt asks.now first.now second.now }
{}

/// Two different lists of outcomes of the same requests have different texts.
pub fn texts_tell_outcomes_apart(asks: &[Ask], first: &[Outcome], second: &[Outcome])
    ensures { TextTells asks.now first.now second.now }
{}
