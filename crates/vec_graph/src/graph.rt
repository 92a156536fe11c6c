//! The state of the index.

ghost use Rattle.std.specs.Prelude.{◌≡◌, IfOk};

use crate::node::Node;
use std::alloc::{AllocError, Global};
use vec_history::Rules;
use vec_names::{Mapped, Params, Tid};

/// The state of an HNSW index, apart from how its pages hold it.
#[derive(Drop)]
pub struct Graph {
    pub params: Params,
    /// The nodes, deleted ones too, by their places.
    pub nodes: Mapped<Node>,
    /// Where each search begins, if the index has a node.
    pub entry: Option<Tid>,
    /// The level of the entry point; 0 where there is none.
    pub level: u8,
    /// The block where room for a node is looked for first, from 1.
    pub hint: u32,
    /// The number of blocks, that of the index's parameters counted.
    pub blocks: u32,
}

impl Graph {
    /// An equal graph, in memory of its own.
    pub fn try_clone(&self, alloc: Global) -> Result<Graph, AllocError>
        ensures { IfOk result (λ copy. copy ≡ self.now) }
    {
        let nodes = nodes_of(&self.nodes, alloc)?;
        Ok(Graph {
            params: self.params,
            nodes,
            entry: self.entry,
            level: self.level,
            hint: self.hint,
            blocks: self.blocks,
        })
    }
}

// An equal map of nodes, in memory of its own.
fn nodes_of(nodes: &Mapped<Node>, alloc: Global) -> Result<Mapped<Node>, AllocError>
    ensures { IfOk result (λ copy. copy ≡ nodes.now) }
{
    let mut copy = Mapped::new(alloc);
    for (place, node) in nodes.iter() {
        let twin = node.try_clone(alloc)?;
        copy.insert(*place, twin)?;
    }
    Ok(copy)
}

impl Rules for Graph {
    ghost use Rattle.vec_graph.specs.Legal.{IsAllowed};

    ghost allows = { λ base acts act. IsAllowed base acts act };

    ghost allows_gates = { λ base acts desk gate hold may. may };
}
