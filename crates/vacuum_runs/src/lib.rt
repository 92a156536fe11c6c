//! Passes of a vacuum over a small desk: their tests.
#![tactic(auto)]

#[cfg(test)]
mod tests;
