//! A row that a scan met.

use bit_dist::Dist;
use vec_names::HeapId;

/// A row that was met: compared by its distance, then by its name, and then by where it stands.
#[derive(Clone, Copy, Debug)]
pub struct Met {
    /// The distance of its value to the query.
    pub dist: Dist,
    /// The row of the table.
    pub id: HeapId,
    /// The block of the index where it stands.
    pub block: u32,
    /// Its place there, from 1.
    pub off: u16,
}
