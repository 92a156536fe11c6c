//! Where a row came to stand.
#![tactic(auto)]

use vec_names::{HeapId, Tid};
use vec_steps::Trace;

/// What an insert did: the node that the row has now, and the positions of its looks, in their order.
#[derive(Drop)]
pub struct Inserted {
    /// The node's place.
    pub at: Tid,
    /// From 1 to 255.
    pub version: u8,
    /// The highest layer in which it stands.
    pub level: u8,
    /// Whether the node had the value before, and took the row's id.
    pub joined: bool,
    pub trace: Trace,
}

/// The same without the looks.
#[derive(Clone, Copy)]
pub struct Landing {
    pub at: Tid,
    pub version: u8,
    pub level: u8,
    pub joined: bool,
}

/// The row that is inserted, beside its value: its id, and the level that its word gives.
#[derive(Clone, Copy)]
pub struct Coming {
    pub id: HeapId,
    pub level: u8,
}
