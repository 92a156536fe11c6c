//! What was read or made, for a board to go on from.

use page_bytes::Page;
use vec_outside::Area;

/// An index that was read from disks, or was just made there: what a board goes on from.
#[derive(Drop)]
pub struct Loaded {
    /// All pages, that of block 0 first; at most 32,768.
    pub pages: Vec<Page>,
    /// The number of the epoch, from 1.
    pub epoch: u64,
    /// The log area of the epoch: of an odd one the first.
    pub area: Area,
    /// How many lasting events there were until now, modulo 2^64. The next one has the number behind this.
    pub before: u64,
    /// The place in the log area where the epoch's events end, from 40 to 2^32.
    pub end: u64,
    /// How much of the epoch's room its events take, in bytes: their own and five for each, at most 2^28.
    pub used: u64,
    /// The blocks whose pages the page area may lack, rising.
    pub unwritten: Vec<u32>,
}
