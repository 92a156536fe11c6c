//! Lists as values: `Listed`, a `Vec` that contracts see as the list of its elements; and what definitions and proofs of
//! other crates say of lists that std does not: the order that a stable sort gives (specs/Ranking.antt), the elements that a
//! mask of bits leaves (specs/Masks.antt), and lemmas.
#![tactic(auto)]

mod listed;

pub use listed::Listed;

#[cfg(test)]
mod tests;
