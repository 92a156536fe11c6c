//! Gates over any steps: one is taken, and given back.
//!
//! The definitions stand in specs/: `Gating` (what such a call does, and how it fails).
#![tactic(auto)]

mod law;
mod taking;

pub use law::law_holds;
pub use taking::{give_back, take_gate};

#[cfg(test)]
mod tests;
