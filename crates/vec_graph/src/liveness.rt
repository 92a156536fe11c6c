//! Which nodes are live, and which are doomed.

ghost use Rattle.std.specs.Prelude.{◌↔◌, IsTrue};
ghost use Rattle.vec_graph.specs.Graph.{IsLive, IsDoomed, IsLiveAt, IsDoomedAt};

use crate::graph::Graph;
use crate::node::Node;
use vec_names::Tid;

/// Whether the node is not deleted and rows of the table have its value.
pub fn is_live(node: &Node) -> bool
    ensures { IsTrue result ↔ IsLive node.now }
{
    !node.deleted && !node.ids.is_empty()
}

/// Whether the node is not deleted and no row has its value any more.
pub fn is_doomed(node: &Node) -> bool
    ensures { IsTrue result ↔ IsDoomed node.now }
{
    !node.deleted && node.ids.is_empty()
}

/// Whether a live node stands at the place that reaches up to the layer.
pub fn live_at(graph: &Graph, at: Tid, layer: u32) -> bool
    ensures { IsTrue result ↔ IsLiveAt graph.now at layer }
{
    match graph.nodes.get(at) {
        Some(node) => is_live(node) && layer <= u32::from(node.level),
        None => false,
    }
}

/// Whether a doomed node stands at the place.
pub fn doomed_at(graph: &Graph, at: Tid) -> bool
    ensures { IsTrue result ↔ IsDoomedAt graph.now at }
{
    match graph.nodes.get(at) {
        Some(node) => is_doomed(node),
        None => false,
    }
}
