//! The pages of an index without nodes, from which an index of no rows begins.
#![tactic(auto)]

mod pages;

pub use pages::empty_index;

#[cfg(test)]
mod tests;
