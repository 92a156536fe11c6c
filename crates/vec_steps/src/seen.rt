//! What looks at pages tell, and where looks were made.

use arrayvec::ArrayVec;
use bit_code::Bits;
use vec_names::{HeapId, Listed, Tid};

/// A node as a look at its page tells it.
#[derive(Drop)]
pub struct Seen {
    pub at: Tid,
    pub level: u8,
    /// From 1 to 255.
    pub version: u8,
    pub deleted: bool,
    /// The rows of the table that have its value.
    pub ids: ArrayVec<HeapId, 10>,
}

/// A row of a block of a list, as a look at the block tells it.
#[derive(Drop)]
pub struct RowSeen {
    /// Counted from 1.
    pub off: u16,
    pub id: HeapId,
    pub bits: Bits,
}

/// A list's centre.
#[derive(Drop)]
pub struct Centre {
    /// The list's number, counted from 0.
    pub list: u32,
    /// The block that begins its chain.
    pub first: u32,
    /// The block where room for a row is looked for first.
    pub aim: u32,
    pub bits: Bits,
}

/// The positions of looks, in their order: each is the number of acts before it.
#[derive(Drop)]
pub struct Trace {
    pub reads: Listed<u64>,
}

/// What a vacuum of a graph did: how many rows it took out, how many nodes it found without any, and how many it deleted.
#[derive(Drop)]
pub struct Vacuumed {
    pub removed: u64,
    pub doomed: u64,
    pub marked: u64,
    pub trace: Trace,
}
