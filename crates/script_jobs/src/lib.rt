//! The commands of a script, written once over any steps: each gives its reply and its job.
//!
//! The definitions stand in specs/: `Jobs` (what a command does, its reply and its job, by cases of the command; commands one after
//! the other), `Searching` (a search, batch after batch) and `Counting` (the counts of an index).
#![tactic(auto)]

mod commands;
mod counting;
mod findings;
mod job;
mod looking;
mod planning;
mod rows;
mod searching;
mod stats;

pub use commands::one;
pub use job::Job;
pub use stats::count_nodes;
