//! What a step is asked for.

use bit_code::Bits;
use vec_history::{Gate, Hold, Stage};
use vec_names::{HeapId, Listed, Tid};

/// A node that is to be put, with one row of the table.
#[derive(Drop)]
pub struct NewNode {
    /// The highest layer in which it is to stand.
    pub level: u8,
    pub id: HeapId,
    pub bits: Bits,
    /// Its neighbours, the highest layer first; None is a slot in which none stands.
    pub lists: Listed<Option<Tid>>,
}

/// What a step is asked for: a look, a change, or room in the log.
///
/// A place `at` of a change, and the `list_at`, `level` and `version` beside it, are as a look told them. `layer` counts from
/// the lowest, 0, and `slot` from 0 within its layer.
#[derive(Drop)]
pub enum Ask {
    /// Nothing: what is left of an ask whose change was made.
    Spent,
    /// Room in the log for so many acts of this desk.
    Reserve {
        events: u32,
    },
    /// The entry point, its level, the hint and the number of blocks.
    Meta,
    /// The node at a place that reaches a layer, of any version or of one.
    Node {
        at: Tid,
        layer: u8,
        version: Option<u8>,
    },
    /// The slots of one layer of a node.
    List {
        at: Tid,
        list_at: Tid,
        level: u8,
        version: u8,
        layer: u8,
    },
    /// The nodes of a page, deleted ones too.
    Page {
        block: u32,
    },
    /// A new node on a block that is there.
    Put {
        block: u32,
        node: NewNode,
    },
    /// A new node on new blocks.
    PutNew {
        node: NewNode,
    },
    /// One more row for a node.
    Join {
        at: Tid,
        version: u8,
        id: HeapId,
    },
    /// A slot, which was read as `held`, comes to name `to`.
    Link {
        at: Tid,
        list_at: Tid,
        level: u8,
        version: u8,
        layer: u8,
        slot: u16,
        held: Option<Tid>,
        to: Tid,
    },
    /// All slots of a node come to name others.
    Relist {
        at: Tid,
        list_at: Tid,
        version: u8,
        lists: Listed<Option<Tid>>,
    },
    /// Rows of a node go that the mask `gone` names, the first by its lowest bit.
    Drop {
        at: Tid,
        version: u8,
        gone: u16,
    },
    /// A node is deleted.
    Mark {
        at: Tid,
        list_at: Tid,
        version: u8,
    },
    /// The entry point, or none, and its level.
    Entry {
        to: Option<Tid>,
        level: u8,
    },
    /// The block where room for a node is looked for first.
    Hint {
        block: u32,
    },
    /// A gate is taken, and the room for its release with it.
    Take {
        gate: Gate,
        hold: Hold,
    },
    /// A gate is given back.
    Release {
        gate: Gate,
    },
    /// A vacuum begins a pass; the first takes the room for its end with it.
    Phase {
        stage: Stage,
    },
    /// A vacuum ends, done or not.
    EndVacuum,
    /// The centres on a block.
    Centres {
        block: u32,
    },
    /// The rows on a block, and the block behind it.
    Rows {
        block: u32,
    },
    /// A row for a block that is there.
    Add {
        block: u32,
        id: HeapId,
        bits: Bits,
    },
    /// A row on a new block, behind the block `last`, which ends the list.
    Extend {
        list: u32,
        last: u32,
        id: HeapId,
        bits: Bits,
    },
    /// The rows at these offsets of a block go, which rise.
    Cut {
        block: u32,
        gone: Listed<u16>,
    },
    /// The block of a list where room for a row is looked for first.
    Aim {
        list: u32,
        block: u32,
    },
}
