//! What a crash may leave of a small queue, which has two sides and cells: it is formatted and changed, each of its device calls fails in
//! each way, and each image that a crash leaves is opened.
#![tactic(auto)]

#[cfg(test)]
mod crashes;
#[cfg(test)]
mod faults;
#[cfg(test)]
mod first_fault;
#[cfg(test)]
mod operations;
#[cfg(test)]
mod queue;
