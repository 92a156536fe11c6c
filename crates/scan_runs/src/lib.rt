//! Scans over a small desk that takes the gate: their tests.
#![tactic(auto)]

#[cfg(test)]
mod tests;
