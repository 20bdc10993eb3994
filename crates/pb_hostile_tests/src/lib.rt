//! The program over regions, sources and sinks that mean it no good, compared with plain readings of the format and of scripts.
#![tactic(auto)]

#[cfg(test)]
mod calls;
#[cfg(test)]
mod format;
#[cfg(test)]
mod regions;
#[cfg(test)]
mod script;
#[cfg(test)]
mod sources;
#[cfg(test)]
mod streams;
