//! How near a list is.

use bit_dist::Dist;

/// A list, by how near its centre is to a value: compared by the distance, and then by the list's number.
#[derive(Clone, Copy, Debug)]
pub struct Near {
    /// The distance of the centre.
    pub dist: Dist,
    /// The list's number, from 0.
    pub list: u32,
    /// The block that begins its chain.
    pub first: u32,
    /// The block where room for a row is looked for first.
    pub aim: u32,
}
