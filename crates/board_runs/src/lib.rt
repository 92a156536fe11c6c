//! A board of small pages, its core alone and with desks: tests.
#![tactic(auto)]

#[cfg(test)]
mod board_tests;
#[cfg(test)]
mod change_tests;
#[cfg(test)]
mod core_tests;
#[cfg(test)]
mod look_tests;
#[cfg(test)]
mod replay_tests;
#[cfg(test)]
mod turn_tests;
