//! What happens to an index.

use crate::gate::{Gate, Hold};
use crate::stage::Stage;
use bit_code::Bits;
use vec_names::{HeapId, Listed, Tid};

/// One event: a change of the index, which goes to the log, or a passing event, which does not.
///
/// A node of a graph stands at `at`, and its list of neighbours at `list_at`. `version` is the node's,
/// from 1 to 255.
#[derive(Drop)]
pub enum Event {
    /// A new node with one heap id, at a new place or at a deleted one. `lists` has the neighbours of
    /// every layer, the highest layer first; None is a slot in which no neighbour stands.
    Put {
        at: Tid,
        list_at: Tid,
        version: u8,
        level: u8,
        id: HeapId,
        bits: Bits,
        lists: Listed<Option<Tid>>,
    },
    /// The node has one more heap id, its last.
    Join {
        at: Tid,
        version: u8,
        id: HeapId,
    },
    /// A slot of the node's list, counted over all its layers from 0, becomes `to`.
    Link {
        at: Tid,
        list_at: Tid,
        version: u8,
        slot: u16,
        to: Tid,
    },
    /// The node's list becomes this one.
    Relist {
        at: Tid,
        list_at: Tid,
        version: u8,
        lists: Listed<Option<Tid>>,
    },
    /// The heap ids go that the mask `gone` names, the first by its lowest bit; the others close up.
    Drop {
        at: Tid,
        version: u8,
        gone: u16,
    },
    /// The node is deleted. `version` is the one before.
    Mark {
        at: Tid,
        list_at: Tid,
        version: u8,
    },
    /// The graph's entry point and its level; level 0 with none.
    Entry {
        to: Option<Tid>,
        level: u8,
    },
    /// The block where room for a node is looked for first.
    Hint {
        block: u32,
    },
    /// One more entry on a block of a list.
    IvfAdd {
        block: u32,
        id: HeapId,
        bits: Bits,
    },
    /// A new block with one entry, behind the block `last` of a list, counted from 0.
    IvfGrow {
        list: u32,
        last: u32,
        block: u32,
        id: HeapId,
        bits: Bits,
    },
    /// The entries at these offsets of a block go, which rise; the others close up.
    IvfDrop {
        block: u32,
        gone: Listed<u16>,
    },
    /// The block of a list where room for an entry is looked for first.
    IvfHint {
        list: u32,
        block: u32,
    },
    /// A desk takes a gate.
    Gate {
        gate: Gate,
        hold: Hold,
    },
    /// A desk gives a gate back.
    Ungate {
        gate: Gate,
    },
    /// A vacuum begins a pass.
    Phase {
        stage: Stage,
    },
    /// A vacuum ends after its last pass.
    VacuumEnd,
    /// A vacuum ends in this pass.
    Cancel {
        stage: Stage,
    },
    /// The lasting events before this count are settled.
    Settled {
        upto: u64,
    },
    /// The disks have met so many faults.
    DiskFaulted {
        count: u64,
    },
}

/// One event made by one desk, by which the desk is known.
#[derive(Drop)]
pub struct Act {
    pub desk: u32,
    pub event: Event,
}
