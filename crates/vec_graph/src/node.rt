//! The nodes of the graph.

ghost use Rattle.std.specs.Prelude.{◌≡◌, IfOk};

use bit_code::Bits;
use std::alloc::{AllocError, Global};
use vec_names::{HeapId, Listed, Tid};

/// One node of the graph: a bit value, with the rows of the table that have it, and its neighbours.
#[derive(Drop)]
pub struct Node {
    /// The highest layer in which it stands.
    pub level: u8,
    /// From 1 to 255; another one each time that its place is used anew.
    pub version: u8,
    /// Whether a vacuum has deleted it. Its place may then be used anew, by a node of the same level.
    pub deleted: bool,
    pub bits: Bits,
    /// The rows of the table that have this value, at most 10.
    pub ids: Listed<HeapId>,
    /// Where its list of neighbours stands.
    pub list_at: Tid,
    /// Its neighbours, the highest layer first: m in each layer above the lowest, and 2m in that. None
    /// is a slot in which no neighbour stands.
    pub slots: Listed<Option<Tid>>,
}

impl Node {
    /// An equal node, in memory of its own.
    pub fn try_clone(&self, alloc: Global) -> Result<Node, AllocError>
        ensures { IfOk result (λ copy. copy ≡ self.now) }
    {
        let bits = self.bits.copied()?;
        let ids = self.ids.try_clone(alloc)?;
        let slots = self.slots.try_clone(alloc)?;
        Ok(Node {
            level: self.level,
            version: self.version,
            deleted: self.deleted,
            bits,
            ids,
            list_at: self.list_at,
            slots,
        })
    }
}
