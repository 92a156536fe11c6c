//! What a vacuum may mark: a law. The function here does no work.

ghost use Rattle.std.specs.Prelude.{ℕ, length, ◌<◌, ◌≤◌};
ghost use Rattle.vec_names.specs.declared.tid.Tid.{Tid as Tids};
ghost use Rattle.vec_history.specs.declared.stage.Stage.TheVariants.{Mark};
ghost use Rattle.vec_history.specs.Acts.{NoneFrom};
ghost use Rattle.vec_history.specs.Phases.{IsBehindDrops, IsInPhase};
ghost use Rattle.vec_graph.specs.Graph.{IsDoomedAt};
ghost use Rattle.vec_graph.specs.Effect.{after, state_after};
ghost use Rattle.vec_graph.specs.Lasting.{IsMarkAt};
ghost use Rattle.vec_graph.specs.Rules.{IsMarkAllowed};
ghost use Rattle.vec_graph.specs.Legal.{IsLegal};
ghost use Rattle.vec_graph.specs.Shaped.{IsShaped};

use vec_graph::Graph;
use vec_history::Act;

/// Which nodes a vacuum may mark. A node that was doomed at a position stays so until it is marked; while a desk's phase Mark stands it
/// may mark each node that is doomed; and it may mark no node that was not doomed already behind a barrier after which no Drop came.
pub fn law_marks(base: &Graph, acts: &[Act])
    requires legal { IsLegal base.now acts.now }
    requires shaped { IsShaped base.now }
    ensures stays { (p : ℕ) (at : Tids) → p ≤ length acts.now → NoneFrom acts.now p (λ a. IsMarkAt at a.event)
        → IsDoomedAt (state_after base.now acts.now p) at → IsDoomedAt (after base.now acts.now) at }
    ensures may { (desk : ℕ) (at : Tids) → IsInPhase acts.now desk Mark → IsDoomedAt (after base.now acts.now) at
        → (list_at : Tids) × (version : ℕ) × IsMarkAllowed base.now acts.now desk at list_at version }
    ensures no_other { (b p desk version : ℕ) (at list_at : Tids) → IsMarkAllowed base.now acts.now desk at list_at version
        → IsBehindDrops acts.now b → b < p → p ≤ length acts.now → IsDoomedAt (state_after base.now acts.now p) at }
{}
