//! Reports of regions on the device in memory.
#![tactic(auto)]

#[cfg(test)]
mod engines;
#[cfg(test)]
mod reporting;
#[cfg(test)]
mod reports;
#[cfg(test)]
mod rows;
