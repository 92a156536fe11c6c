//! What a desk may ask of an HNSW index: the program beside the word of `vec_steps`, for tests; and that what it may ask holds on
//! while other desks act.
#![tactic(auto)]

mod asking;
mod later;

pub use asking::may_ask;
pub use later::law_later_ask;

#[cfg(test)]
mod tests;
