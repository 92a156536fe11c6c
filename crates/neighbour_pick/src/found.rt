//! Elements of the graph, as reads told them.

use arrayvec::ArrayVec;
use bit_code::Bits;
use bit_dist::Dist;
use vec_names::{HeapId, Tid};

/// An element of the graph as a read told it, with its distance to what is looked for.
#[derive(Drop)]
pub struct Found {
    pub at: Tid,
    /// Where its list of neighbours stands.
    pub list_at: Tid,
    /// The highest layer in which it stands.
    pub level: u8,
    /// From 1 to 255.
    pub version: u8,
    pub dist: Dist,
    /// The rows of the table that have its value; with none it has lost them all.
    pub ids: ArrayVec<HeapId, 10>,
    pub bits: Bits,
}

/// A slot of a list of neighbours, as reads told it.
#[derive(Drop)]
pub struct SlotSeen {
    /// The member, if the slot has one.
    pub at: Option<Tid>,
    /// Whether the member is live.
    pub live: bool,
    /// The member's distance to the list's owner. Of a member that is not live this and the value say nothing.
    pub dist: Dist,
    pub bits: Bits,
}
