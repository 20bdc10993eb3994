//! The queue's engine over a device in memory: its rounds, its failing calls, crashes, and regions
//! that are damaged.
#![tactic(auto)]

#[cfg(test)]
mod crashes;
#[cfg(test)]
mod damaged;
#[cfg(test)]
mod engine;
#[cfg(test)]
mod faults;
#[cfg(test)]
mod rounds;
#[cfg(test)]
mod shared;
#[cfg(test)]
mod turns;
#[cfg(test)]
mod wraps;
