//! The commands of a script.

use bit_code::Bits;
use vec_names::{HeapId, Ops};

/// A line of a script that is not skipped. A number that may be left out is none where it was.
#[derive(Drop)]
pub enum Command {
    /// A row: its id and its value; for an index also the word of which its level is drawn.
    Row {
        id: HeapId,
        bits: Bits,
        word: Option<u64>,
    },
    /// A value, whose distances to the rows above are asked for.
    Query {
        bits: Bits,
    },
    /// A new generator of words, from this seed.
    Draw {
        seed: u64,
    },
    /// An HNSW index of values of so many bits, from the rows above: m is how many neighbours a node has in a layer above
    /// the lowest, ef how many candidates are kept while it is built, and so many rows are inserted in a round.
    Create {
        ops: Ops,
        bits: u64,
        m: Option<u64>,
        ef: Option<u64>,
        round: Option<u64>,
    },
    /// A row for the index that stands: its id, its value, and the word of which its level is drawn.
    Insert {
        id: HeapId,
        bits: Bits,
        word: Option<u64>,
    },
    /// At most so many rows near a value, by a search that keeps ef candidates, which may go on.
    Search {
        bits: Bits,
        limit: u64,
        ef: Option<u64>,
        further: Option<Further>,
    },
    /// The counts of the index.
    Stats,
}

/// How a search goes on until it has as many rows as were asked for: with the most tuples that it may visit.
#[derive(Clone, Copy, Debug, PartialEq, Eq)]
pub enum Further {
    /// Batch by batch: a later batch may have nearer rows than an earlier one.
    Relaxed { most: Option<u64> },
    /// The same, without rows that are nearer than one given before.
    Strict { most: Option<u64> },
}

impl Command {
    ghost use Rattle.std.specs.Prelude.{◌≡◌, ◌≤◌};
    ghost use Rattle.script_words.specs.Grammar.{places_in};

    /// The number of places of its value, and 0 where it has none.
    pub fn places(&self) -> u32
        ensures { result ≡ places_in self.now }
    {
        match self {
            Command::Row { bits, .. } => bits.count(),
            Command::Query { bits } => bits.count(),
            Command::Insert { bits, .. } => bits.count(),
            Command::Search { bits, .. } => bits.count(),
            Command::Draw { .. } | Command::Create { .. } | Command::Stats => 0,
        }
    }
}
