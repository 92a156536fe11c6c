//! A desk for tests at a board where other desks act before each of its steps.
#![tactic(auto)]

mod ending;
mod meddled;
mod playing;
mod serving;

pub use meddled::Meddled;

#[cfg(test)]
mod tests;
