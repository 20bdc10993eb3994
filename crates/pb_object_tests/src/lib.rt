//! Tests of the objects: of the plain functions that say what an object does, and of the map, the stack and the heap.
#![tactic(auto)]

#[cfg(test)]
mod asked;
#[cfg(test)]
mod heap;
#[cfg(test)]
mod map;
#[cfg(test)]
mod plain;
#[cfg(test)]
mod stack;
