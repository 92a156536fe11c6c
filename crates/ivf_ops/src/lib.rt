//! Operations of an index of lists (IVFFlat), over any steps: which lists are nearest to a value, and the walk along a list's chain.
//!
//! The definitions stand in specs/: `Viewing` (looks that follow each other, and how a fault ends them), `Nearness` (the order of
//! lists, and of rows), `Scanning` (what is read of the centres, and which lists are nearest by that), `Standing` (blocks that have a
//! place in a chain) and `Walking` (looks along chains).
#![tactic(auto)]

mod centres;
mod chains;
mod law;
mod looking;
mod met;
mod met_order;
mod near;
mod near_order;

pub use centres::{nearest_of, read_centres};
pub use chains::walk_chain;
pub use law::{law_centres, law_chain};
pub use met::Met;
pub use near::Near;

#[cfg(test)]
mod tests;
