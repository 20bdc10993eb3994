//! Shared objects over the device in memory: rows of tries one after the other, and clients on threads of their own.
#![tactic(auto)]

#[cfg(test)]
mod calls;
#[cfg(test)]
mod rows;
#[cfg(test)]
mod threads;
