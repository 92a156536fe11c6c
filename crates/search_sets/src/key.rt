//! What an element is ordered by.

use bit_dist::Dist;
use vec_names::Tid;

/// What an element is ordered by, and which of the known ones it is: 20 bytes, so that sets of them are cheap to move about.
#[derive(Clone, Copy, Debug)]
pub struct Key {
    /// The element's distance to what is looked for.
    pub dist: Dist,
    pub at: Tid,
    /// Its number among the known ones, counted from 0 in the order in which they came.
    pub index: u32,
}
