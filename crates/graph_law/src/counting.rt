//! How many nodes are doomed, and where nodes stand: laws. A function here does no work.

ghost use Rattle.std.specs.Prelude.{◌≡◌, ◌+◌, ℕ, Some};
ghost use Rattle.vec_names.specs.declared.tid.Tid.{Tid as Tids};
ghost use Rattle.vec_graph.specs.declared.node.Node.{Node as Nodes};
ghost use Rattle.vec_graph.specs.Graph.{node_at};
ghost use Rattle.vec_history.specs.declared.event.Act.{Act as Acts};
ghost use Rattle.vec_graph.specs.Effect.{effect, after, state_after};
ghost use Rattle.vec_graph.specs.Legal.{IsAllowed};
ghost use Rattle.vec_graph.specs.Places.{IsOnBlocks};
ghost use Rattle.graph_law.specs.Counting.{doomed_count, added, ceased};

use vec_graph::Graph;
use vec_history::Act;

/// What one act that is allowed makes of the number of doomed nodes, where nodes stand on their blocks: a Drop that takes the last
/// ids of a node adds one, a Mark takes one away, and no other act changes it.
pub fn law_doomed_count(base: &Graph, acts: &[Act])
    requires { IsOnBlocks (after base.now acts.now) }
    ensures { (a : Acts) → IsAllowed base.now acts.now a
        → doomed_count (effect 255 a.event (after base.now acts.now)) + ceased a.event
        ≡ doomed_count (after base.now acts.now) + added (after base.now acts.now) a.event }
{}

/// Whatever acts come, allowed or not, a place at which a node stands keeps one.
pub fn law_place_kept(base: &Graph, acts: &[Act])
    ensures { (n : ℕ) (at : Tids) (was : Nodes) → node_at (state_after base.now acts.now n) at ≡ Some was
        → (now : Nodes) × (node_at (after base.now acts.now) at ≡ Some now) }
{}
