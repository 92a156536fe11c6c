//! What the law of the graph says of the reads of a scan's first batch: while the desk holds Scan, none is Gone, and no place
//! that a read named is marked.
//!
//! The definitions stand in specs/: `Reading` (reads under the gate, and the places that they name).
#![tactic(auto)]

mod law;

pub use law::law_first_batch;

#[cfg(test)]
mod tests;
