//! The program over real files: what it prints, and what it leaves of a path that can't be a device.
#![tactic(auto)]

#[cfg(test)]
mod calls;
#[cfg(test)]
mod noted;
#[cfg(test)]
mod paths;
#[cfg(test)]
mod rows;
#[cfg(test)]
mod run;
