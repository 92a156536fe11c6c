//! The law of the graph for reads: a law. A function here does no work.

ghost use Rattle.std.specs.Prelude.{◌≡◌, ℕ, ◌≤◌, List, slice_get, Some, Contains};
ghost use Rattle.vec_names.specs.declared.tid.Tid.{Tid as Tids};
ghost use Rattle.vec_history.specs.declared.event.Event.TheVariants as event;
ghost use Rattle.vec_history.specs.Acts.{IsActAt};
ghost use Rattle.vec_graph.specs.Legal.{IsLegal};
ghost use Rattle.vec_graph.specs.Sound.{IsSound};
ghost use Rattle.vec_graph.specs.Shaped.{IsShaped};
ghost use Rattle.graph_search.specs.Reads.{Look, Answer, Gone};
ghost use Rattle.graph_law.specs.Touching.{IsTouchedAt};
ghost use Rattle.scan_law.specs.Reading.{IsFirstBatchUnder, places_named};

use vec_graph::Graph;
use vec_history::Act;

/// A law, and no work. From a shaped and sound base, in a legal history, a desk reads a first batch while it holds Scan. Then no
/// read is Gone: each node that it looks at stands there, is not deleted, and reaches up to the layer; and each list is that of
/// the node as it was read. A place that a read names is touched by then, and no act marks it while the desk holds the gate: the
/// act of number k comes at position k.
pub fn law_first_batch(base: &Graph, acts: &[Act])
    requires legal { IsLegal base.now acts.now }
    requires shaped { IsShaped base.now }
    requires sound { IsSound base.now }
    ensures not_gone { (desk since until : ℕ) (positions : List ℕ) (reads : List (Look × Answer))
        → IsFirstBatchUnder base.now acts.now desk since until positions reads
        → (i : ℕ) (look : Look) → slice_get reads i ≡ Some (look, Gone) → ⊥ }
    ensures touched { (desk since until : ℕ) (positions : List ℕ) (reads : List (Look × Answer))
        → IsFirstBatchUnder base.now acts.now desk since until positions reads
        → (i p : ℕ) (look : Look) (told : Answer) (at : Tids)
        → slice_get reads i ≡ Some (look, told) → slice_get positions i ≡ Some p
        → Contains (places_named told) at → IsTouchedAt base.now acts.now since p at }
    ensures not_marked { (desk since until : ℕ) (positions : List ℕ) (reads : List (Look × Answer))
        → IsFirstBatchUnder base.now acts.now desk since until positions reads
        → (i p : ℕ) (look : Look) (told : Answer) (at : Tids)
        → slice_get reads i ≡ Some (look, told) → slice_get positions i ≡ Some p
        → Contains (places_named told) at → (k marker version : ℕ) (list_at : Tids) → p ≤ k → k ≤ until
        → IsActAt acts.now k marker (event.Mark at list_at version) → ⊥ }
{}
