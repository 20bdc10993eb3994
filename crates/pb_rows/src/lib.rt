//! Runs of the whole program, from words and bytes to bytes and a status: the worked rows, and what a run asks of what it is handed.
#![tactic(auto)]

#[cfg(test)]
mod calls;
#[cfg(test)]
mod crashes;
#[cfg(test)]
mod drills;
#[cfg(test)]
mod each_call;
#[cfg(test)]
mod faults;
#[cfg(test)]
mod first_fault;
#[cfg(test)]
mod log;
#[cfg(test)]
mod long;
#[cfg(test)]
mod regions;
#[cfg(test)]
mod replays;
#[cfg(test)]
mod rows;
#[cfg(test)]
mod run;
#[cfg(test)]
mod sound;
#[cfg(test)]
mod watched;
#[cfg(test)]
mod worked;
