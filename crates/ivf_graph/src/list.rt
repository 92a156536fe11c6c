//! One list of the index.

use bit_code::Bits;
use vec_names::{HeapId, Listed};

/// One list: a centre, and the rows that stand nearest to it, in a chain of blocks.
#[derive(Drop)]
pub struct IvfList {
    /// The value by which rows and queries are told near. No event changes it.
    pub centre: Bits,
    /// The block of the chain where room for a row is looked for first.
    pub aim: u32,
    /// The blocks of the list in their order, each by its number, with its rows in theirs.
    pub chain: Listed<(u32, Listed<(HeapId, Bits)>)>,
}
