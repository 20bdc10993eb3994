//! Tests of the devices in memory and what crashes leave of them, and of sources and sinks.
#![tactic(auto)]

#[cfg(test)]
mod image;
#[cfg(test)]
mod slow;
#[cfg(test)]
mod streams;
