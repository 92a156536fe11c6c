//! What an index is made with.

ghost use Rattle.std.specs.Prelude.{◌↔◌, IsTrue};
ghost use Rattle.vec_names.specs.Params.{IsInRange, IsGraphInRange, AreListsInRange};

use index_sizes::{MOST_BITS, MOST_BLOCKS};

/// The two index methods.
#[derive(Clone, Copy, Debug, PartialEq, Eq, Hash)]
pub enum Kind {
    /// A graph of near neighbours in layers.
    Hnsw,
    /// Lists round centres.
    Ivf,
}

/// The two distances between bit values.
#[derive(Clone, Copy, Debug, PartialEq, Eq, Hash)]
pub enum Ops {
    Hamming,
    Jaccard,
}

/// What an index is made with. Not every value is in its range: `check` says which are.
#[derive(Clone, Copy, Debug, PartialEq, Eq, Hash)]
pub struct Params {
    pub kind: Kind,
    pub ops: Ops,
    /// The length of each value, in bits.
    pub bits: u32,
    /// How many neighbours a node of a graph has in a layer above the lowest; 0 for lists.
    pub m: u16,
    /// How many candidates a search keeps while a graph is built; 0 for lists.
    pub ef: u16,
    /// The number of lists; 0 for a graph.
    pub lists: u32,
}

impl Params {
    /// Whether each number is in the range of the index's kind: bits from 1 to 64,000; for a graph m
    /// from 2 to 100 and ef from 4 to 1,000 and at least twice m, with no lists; for lists the
    /// Hamming distance and 1 to 32,768 lists, with m and ef 0. The ranges of a graph and the length
    /// of a value are those of pgvector.
    pub fn check(&self) -> bool
        ensures { IsTrue result ↔ IsInRange self.now }
    {
        if self.bits < 1 || self.bits > MOST_BITS {
            return false;
        }
        match self.kind {
            Kind::Hnsw => self.is_graph_in_range(),
            Kind::Ivf => self.are_lists_in_range(),
        }
    }

    fn is_graph_in_range(&self) -> bool
        ensures { IsTrue result ↔ IsGraphInRange self.now }
    {
        self.m >= 2
            && self.m <= 100
            && self.ef >= 4
            && self.ef <= 1000
            && self.ef >= 2 * self.m
            && self.lists == 0
    }

    fn are_lists_in_range(&self) -> bool
        ensures { IsTrue result ↔ AreListsInRange self.now }
    {
        self.ops == Ops::Hamming
            && self.lists >= 1
            && self.lists <= MOST_BLOCKS
            && self.m == 0
            && self.ef == 0
    }
}
