//! What a command is answered.

use bit_dist::Dist;
use vec_names::{HeapId, Ops, Tid};

/// What a command is answered. Each reply but `Nothing` is a line, and `Hits` a line for each hit and one behind them.
#[derive(Drop)]
pub enum Reply {
    /// No line: to a row, and to a new generator of words.
    Nothing,
    /// The rows found, nearest first; distances print as the index's distance does.
    Hits { ops: Ops, hits: Vec<(Dist, HeapId)> },
    /// An index was made, of so many blocks and so many rows.
    Created { blocks: u64, entries: u64 },
    /// A row has a node of its own, at this place.
    Put { at: Tid, level: u8, version: u8 },
    /// A row stands in the node of an equal value, at this place.
    Joined { at: Tid },
    /// The counts of an HNSW index.
    Stats { counts: Counts },
    /// The command was refused, and nothing was changed.
    Refused { why: Refusal },
}

/// Why a command was refused.
#[derive(Clone, Copy, Debug, PartialEq, Eq)]
pub enum Refusal {
    /// No index stands.
    NoIndex,
    /// An index stands already.
    Exists,
    /// A number is out of its range, or belongs to an index of the other kind.
    Params,
    /// A value has another length than those of the index.
    Dimensions,
}

/// The counts of an HNSW index.
#[derive(Clone, Copy, Debug, PartialEq, Eq)]
pub struct Counts {
    pub blocks: u64,
    /// All nodes, the deleted ones too.
    pub nodes: u64,
    /// Nodes with rows.
    pub live: u64,
    /// Nodes without rows that are not deleted yet.
    pub doomed: u64,
    pub deleted: u64,
    /// Rows.
    pub entries: u64,
}
