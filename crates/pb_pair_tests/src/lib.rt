//! The calls of a pair on regions that are damaged, on devices that fail, and with a large map and a busy client.
#![tactic(auto)]

#[cfg(test)]
mod damaged;
#[cfg(test)]
mod first_fault;
#[cfg(test)]
mod kept;
#[cfg(test)]
mod sparse;
