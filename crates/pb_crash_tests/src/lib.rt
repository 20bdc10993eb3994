//! What a crash may leave of one small region: each image is read as at an opening, and compared with the rounds that the log tells.
//! The region and its log are those of the example in `docs/CRASH_MODEL.md`. A pair makes that log, also where its device fails, and opens
//! what a crash leaves.
#![tactic(auto)]

#[cfg(test)]
mod crash;
#[cfg(test)]
mod faults;
#[cfg(test)]
mod found;
#[cfg(test)]
mod logs;
#[cfg(test)]
mod orders;
#[cfg(test)]
mod pair;
#[cfg(test)]
mod ready;
#[cfg(test)]
mod reopened;
#[cfg(test)]
mod rounds;
