//! Running a script over an engine: a worker for each client, and what becomes of each of its requests.
#![tactic(auto)]

mod crew;
mod lines;
mod lists;
mod run;
mod worker;

pub use run::run_script;
