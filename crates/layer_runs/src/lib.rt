//! Searches of a layer over a small desk that changes nothing: their tests.
#![tactic(auto)]

#[cfg(test)]
mod search_tests;
