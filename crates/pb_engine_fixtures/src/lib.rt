//! What tests of engines share: whether requests may be served in one round.
#![tactic(auto)]

mod serving;

pub use serving::may_be_served;
