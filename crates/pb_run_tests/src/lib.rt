//! Runs of scripts over an engine on the device in memory.
#![tactic(auto)]

#[cfg(test)]
mod crowds;
#[cfg(test)]
mod faults;
#[cfg(test)]
mod history;
#[cfg(test)]
mod outcomes;
#[cfg(test)]
mod places;
#[cfg(test)]
mod scripts;
#[cfg(test)]
mod session;
#[cfg(test)]
mod told;
