//! Calls of the program one after the other, with crashes and failing calls between and in them, judged by plain objects.
#![tactic(auto)]

#[cfg(test)]
mod asking;
#[cfg(test)]
mod calls;
#[cfg(test)]
mod chain;
#[cfg(test)]
mod draws;
#[cfg(test)]
mod drills;
#[cfg(test)]
mod plain;
#[cfg(test)]
mod stops;
