//! Pages that stand for an index of either method, and what an event that the rules allow makes of them: laws, and no program.
#![tactic(auto)]

mod law;

pub use law::{law_next, law_passing};

#[cfg(test)]
mod tests;
