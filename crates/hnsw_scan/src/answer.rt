//! What a scan answers, and how it goes on.

use bit_dist::Dist;
use vec_names::{HeapId, Tid};

/// A row that is answered.
#[derive(Clone, Copy, Debug)]
pub struct Answer {
    /// The row of the table.
    pub id: HeapId,
    /// The distance of its value to the query.
    pub dist: Dist,
    /// The element that gave it.
    pub at: Tid,
    /// From 1 to 255.
    pub version: u8,
}

/// How a scan goes on after its first batch: not at all; with each row that is found; or without those that are nearer than the
/// last row answered.
#[derive(Clone, Copy, Debug, PartialEq, Eq)]
pub enum Mode {
    Off,
    Relaxed,
    Strict,
}
