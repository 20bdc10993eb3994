//! The requests of one client.
ghost use Rattle.std.specs.Prelude.{◌≡◌, length};

use pb_object::Ask;
use pb_report::Outcome;

/// Requests of one client in order, and a place for the outcome of each.
#[derive(Drop)]
pub struct Lines {
    pub asks: Vec<Ask>,
    pub outcomes: Vec<Outcome>,
    ghost same_length: { length outcomes.items ≡ length asks.items },
}
