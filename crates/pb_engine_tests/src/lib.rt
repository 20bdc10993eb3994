//! Rounds of a combining engine on small maps, stacks and heaps: what they write, what their faults and crashes leave, and what opening
//! finds. What is expected are records and operations that the rows of `cases` spell.
#![tactic(auto)]

#[cfg(test)]
mod cases;
#[cfg(test)]
mod damaged;
#[cfg(test)]
mod engines;
#[cfg(test)]
mod failures;
#[cfg(test)]
mod kept;
#[cfg(test)]
mod numbers;
#[cfg(test)]
mod openings;
#[cfg(test)]
mod records;
#[cfg(test)]
mod sixteen;
