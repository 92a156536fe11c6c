//! The batches of a scan of a graph, over any steps: each from nodes read while it was made, under the gate Scan.
//!
//! The definitions stand in specs/: `Gathering` (batches), `Gated` (what a call does under its gate, and how it fails),
//! `Answering` (rows).
#![tactic(auto)]

mod answer;
mod batches;
mod gated;
mod law;
mod rows;
mod scanning;
mod state;
mod taking;

pub use answer::{Answer, Mode};
pub use batches::{Begun, Gathered, Wish};
pub use gated::{first_gated, next_gated};
pub use law::{law_first_reads, law_rows};
pub use scanning::{Batch, first, next};
pub use state::ScanState;
