//! The graph that the pages of an index stand for.

ghost use Rattle.std.specs.Prelude.{◌≡◌, ◌≤◌, length};
ghost use Rattle.graph_pages.specs.Standing.{IsGraphOf};

use crate::block_rules::is_root;
use crate::broken_blocks::first_broken;
use crate::decoded::decoded;
use crate::list_pointers::named_places;
use crate::nodes::nodes_of;
use crate::page_places::root;
use index_sizes::MOST_BLOCKS;
use page_bytes::Page;
use page_redo::GraphFault;
use std::alloc::Global;
use vec_graph::Graph;

/// The graph that these pages stand for, the page of block 0 first; at most 32,768 pages.
///
/// Block 0 has the meta tuple of a graph and nothing else, with a hint of at most the number of blocks, and an entry, where
/// there is one, at which an element of the stated level stands. Every other block is of the kind `Hnsw`, and each of its
/// items is an element or a neighbour tuple. The list pointer of an element names a neighbour tuple with the slots of its
/// level, its version and its deleted state. A neighbour tuple is named by exactly one list pointer, and its slots name places
/// on the blocks that there are. The numbers of the pages do not matter.
///
/// `Bad` at the first block that breaks one of these rules. An entry breaks block 0, a list pointer the block of its element,
/// and a list that is not named once, or a slot, the block of the neighbour tuple. `Memory` says nothing of the pages.
pub fn graph_of(alloc: Global, pages: &[Page]) -> Result<Graph, GraphFault>
    requires { length pages.now ≤ MOST_BLOCKS }
    ensures { IsGraphOf pages.now result }
{
    let Some(meta) = root(pages) else {
        return Err(GraphFault::Bad { block: 0 });
    };
    if !is_root(pages, &meta) {
        return Err(GraphFault::Bad { block: 0 });
    }
    let items = decoded(alloc, pages, &meta.params)?;
    let named = named_places(alloc, &items)?;
    if let Some(block) = first_broken(pages, &meta.params, &items, &named) {
        return Err(GraphFault::Bad { block });
    }
    let nodes = nodes_of(alloc, pages, &meta.params)?;
    Ok(Graph {
        params: meta.params,
        nodes,
        entry: meta.entry,
        level: meta.level,
        hint: meta.hint,
        blocks: pages.len() as u32,
    })
}
