//! What the pages of an index have to show after so many inserts.

use std::alloc::{AllocError, Global};
use vec_graph::{Graph, Node};
use vec_history::{Act, Event};
use vec_names::{HeapId, Tid};

/// How many of the acts put a node.
pub fn puts(acts: &[Act]) -> usize {
    let mut count: usize = 0;
    for act in acts {
        if let Event::Put { .. } = act.event {
            count = count.wrapping_add(1);
        }
    }
    count
}

/// How many of the acts let a node take one more row.
pub fn joins(acts: &[Act]) -> usize {
    let mut count: usize = 0;
    for act in acts {
        if let Event::Join { .. } = act.event {
            count = count.wrapping_add(1);
        }
    }
    count
}

/// Each row of a number below this one stands in a node, and in one alone, and no other does.
pub fn stand_once(alloc: Global, graph: &Graph, count: u32) -> Result<bool, AllocError> {
    let mut left = vec![in alloc; true; count as usize]?;
    for (_, node) in graph.nodes.iter() {
        for id in node.ids.as_slice() {
            if !take(&mut left, *id) {
                return Ok(false);
            }
        }
    }
    for is_left in left.as_slice() {
        if *is_left {
            return Ok(false);
        }
    }
    Ok(true)
}

// Takes the row from those that are left, if it is one of them; a hundred rows have a block.
fn take(left: &mut [bool], id: HeapId) -> bool {
    let number = u64::from(id.block) * 100 + u64::from(id.off) - 1;
    if number >= left.len() as u64 {
        return false;
    }
    let is_left = left[number as usize];
    left[number as usize] = false;
    is_left
}

/// The entry point is one of the highest nodes; no node is deleted or without a row; and each slot that is not empty names a node.
pub fn is_whole(graph: &Graph) -> bool {
    let Some(at) = graph.entry else {
        return false;
    };
    let Some(entry) = graph.nodes.get(at) else {
        return false;
    };
    if entry.level != graph.level {
        return false;
    }
    for (_, node) in graph.nodes.iter() {
        if node.deleted || node.level > graph.level || !(1..=10).contains(&node.ids.len()) {
            return false;
        }
        if !names_nodes(graph, node) {
            return false;
        }
    }
    true
}

// Each slot of the node that is not empty names a node.
fn names_nodes(graph: &Graph, node: &Node) -> bool {
    for slot in node.slots.as_slice() {
        if let Some(at) = *slot
            && !stands(graph, at)
        {
            return false;
        }
    }
    true
}

fn stands(graph: &Graph, at: Tid) -> bool {
    graph.nodes.get(at).is_some()
}
