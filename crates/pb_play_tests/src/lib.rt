//! Schedules that are played through the core: their answers, and what stands on the device after them.
#![tactic(auto)]

#[cfg(test)]
mod chance;
#[cfg(test)]
mod kinds;
#[cfg(test)]
mod played;
#[cfg(test)]
mod queues;
#[cfg(test)]
mod random;
#[cfg(test)]
mod rows;
#[cfg(test)]
mod seen;
