//! Tests of the texts that come in and go out: words, scripts and schedules, outcome lines and summaries.
#![tactic(auto)]

#[cfg(test)]
mod drill;
#[cfg(test)]
mod outcomes;
#[cfg(test)]
mod schedule;
#[cfg(test)]
mod script;
