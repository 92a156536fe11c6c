//! Distances of bit values: Hamming and Jaccard as exact fractions, ordered by value. specs/Distances.antt says what they are,
//! specs/Hits.antt what a search answers of a row and in which order; `Shared` and `Orders` are lemmas on which those stand.
#![tactic(auto)]

mod between;
mod dist;
mod dist_order;

pub use between::distance;
pub use dist::Dist;

#[cfg(test)]
mod tests;
