//! The law of the graph: laws. A function here does no work.

ghost use Rattle.std.specs.Prelude.{◌≡◌, ℕ, ◌<◌, ◌≤◌, length, take, slice_get, false, Some};
ghost use Rattle.vec_names.specs.declared.tid.Tid.{Tid as Tids};
ghost use Rattle.vec_history.specs.declared.event.Event.TheVariants as event;
ghost use Rattle.vec_history.specs.declared.gate.Gate.TheVariants.{Scan as ScanGate};
ghost use Rattle.vec_history.specs.declared.event.Act.{Act as Acts};
ghost use Rattle.vec_history.specs.declared.gate.Hold.{Hold as Holding};
ghost use Rattle.vec_history.specs.declared.gate.Hold.TheVariants.{Alone};
ghost use Rattle.vec_history.specs.declared.stage.Stage.TheVariants.{Mark};
ghost use Rattle.vec_history.specs.Phases.{IsInPhase};
ghost use Rattle.vec_graph.specs.Cleaning.{IsRepaired};
ghost use Rattle.vec_history.specs.Acts.{IsActAt};
ghost use Rattle.vec_history.specs.Gates.{HoldsSince};
ghost use Rattle.vec_graph.specs.Graph.{node_at, IsUndeletedAt, IsLiveAt, IsDoomedAt, HasMember};
ghost use Rattle.vec_graph.specs.declared.node.Node.{Node as Nodes};
ghost use Rattle.vec_graph.specs.Effect.{after, state_after};
ghost use Rattle.vec_graph.specs.Knowing.{Knows};
ghost use Rattle.vec_graph.specs.Legal.{IsLegal};
ghost use Rattle.vec_graph.specs.Sound.{IsSound, IsAsHigh};
ghost use Rattle.graph_law.specs.Reaching.{IsSoundWith};
ghost use Rattle.vec_graph.specs.Shaped.{IsShaped};
ghost use Rattle.graph_law.specs.Touching.{IsTouchedAt};
ghost use Rattle.graph_law.specs.Standing.{IsSinceMark, IsCleanFrom};
ghost use Rattle.vec_history.specs.Phases.{IsBehindDrops};
ghost use Rattle.vec_graph.specs.Lasting.{IsMarkAt, IsSameAt};
ghost use Rattle.vec_graph.specs.Cleaning.{IsCleanAt};
ghost use Rattle.graph_law.specs.Touching.{IsTouched};
ghost use Rattle.graph_law.specs.Examples.{first, second, third, nobody, naming, live, doomed, deleted, high_naming, pair, names_doomed, scans, drops, repairs};

use vec_graph::Graph;
use vec_history::Act;

/// From a shaped and sound base every state of a legal history is shaped and sound.
pub fn law_sound(base: &Graph, acts: &[Act])
    requires legal { IsLegal base.now acts.now }
    requires shaped { IsShaped base.now }
    ensures shaped { (n : ℕ) → IsShaped (state_after base.now acts.now n) }
    ensures sound { IsSound base.now → (n : ℕ) → IsSound (state_after base.now acts.now n) }
    // also from each node that was live since phase Mark last began
    ensures since_mark { IsSound base.now → IsSoundWith (after base.now acts.now) (IsSinceMark base.now acts.now) }
{}

/// A node that a desk knows is not deleted and as high as the desk knows it, and is not marked.
pub fn law_known(base: &Graph, acts: &[Act])
    requires legal { IsLegal base.now acts.now }
    requires shaped { IsShaped base.now }
    ensures stands { IsSound base.now → (desk layer : ℕ) (at : Tids) → Knows base.now acts.now desk at layer
        → IsUndeletedAt (after base.now acts.now) at × IsAsHigh (after base.now acts.now) at layer }
    ensures not_marked { (n desk marker layer version : ℕ) (at list_at : Tids) → IsActAt acts.now n marker (event.Mark at list_at version)
        → Knows base.now (take n acts.now) desk at layer → ⊥ }
{}

/// At each position n at which a desk holds Scan, what it has touched by then is not deleted, what a touched node has
/// named by then reaches up to that layer, and the next act does not mark what was touched. Where all was cleaned before its Gate, what
/// it has touched is live.
pub fn law_scan(base: &Graph, acts: &[Act])
    requires legal { IsLegal base.now acts.now }
    requires shaped { IsShaped base.now }
    requires sound { IsSound base.now }
    ensures not_deleted { (n desk since p : ℕ) (hold : Holding) (at : Tids) → n ≤ length acts.now
        → HoldsSince (take n acts.now) desk ScanGate hold since
        → IsTouchedAt base.now acts.now since p at → p ≤ n → IsUndeletedAt (state_after base.now acts.now n) at }
    ensures high_enough { (n desk since before p layer : ℕ) (hold : Holding) (owner to : Tids) → n ≤ length acts.now
        → HoldsSince (take n acts.now) desk ScanGate hold since
        → IsTouchedAt base.now acts.now since before owner → before ≤ p → p ≤ n
        → HasMember (state_after base.now acts.now p) owner layer to
        → IsAsHigh (state_after base.now acts.now n) to layer }
    // the entry point as it was told reaches the level that was told with it
    ensures entry { (n p : ℕ) (at : Tids) → p ≤ n → (state_after base.now acts.now p).entry ≡ Some at
        → IsAsHigh (state_after base.now acts.now n) at (state_after base.now acts.now p).level }
    // a touched node keeps its version, level, bits and list
    ensures same { (n desk since p : ℕ) (hold : Holding) (at : Tids) (was : Nodes) → n ≤ length acts.now
        → HoldsSince (take n acts.now) desk ScanGate hold since
        → IsTouchedAt base.now acts.now since p at → p ≤ n → node_at (state_after base.now acts.now p) at ≡ Some was
        → IsSameAt (state_after base.now acts.now n) at was }
    ensures live { (n desk since p clean : ℕ) (hold : Holding) (at : Tids) → n ≤ length acts.now
        → HoldsSince (take n acts.now) desk ScanGate hold since
        → IsTouchedAt base.now acts.now since p at → p ≤ n → IsCleanFrom base.now (take n acts.now) clean → clean ≤ since
        → IsLiveAt (state_after base.now acts.now n) at 0 }
    ensures not_marked { (n desk marker since p version : ℕ) (hold : Holding) (at list_at : Tids)
        → IsActAt acts.now n marker (event.Mark at list_at version)
        → HoldsSince (take n acts.now) desk ScanGate hold since → IsTouchedAt base.now acts.now since p at → p ≤ n → ⊥ }
{}

/// Once a desk took Update alone, and until the next Drop, what desks know is live, what was live is live, and no
/// node becomes doomed.
pub fn law_behind_drops(base: &Graph, acts: &[Act])
    requires legal { IsLegal base.now acts.now }
    requires shaped { IsShaped base.now }
    ensures known { (b desk layer : ℕ) (at : Tids) → IsBehindDrops acts.now b → Knows base.now acts.now desk at layer
        → IsLiveAt (after base.now acts.now) at layer }
    ensures live { (b p layer : ℕ) (at : Tids) → IsBehindDrops acts.now b → b < p → p ≤ length acts.now
        → IsLiveAt (state_after base.now acts.now p) at layer
        → IsLiveAt (after base.now acts.now) at layer }
    ensures doomed { (b p : ℕ) (at : Tids) → IsBehindDrops acts.now b → b < p → p ≤ length acts.now
        → IsDoomedAt (after base.now acts.now) at
        → IsDoomedAt (state_after base.now acts.now p) at }
{}

/// Where Phase Mark is allowed, and in that phase, all was cleaned behind the last Drop, up to a Gate that took Scan alone;
/// and where all was cleaned, live nodes name live nodes alone, and the entry point is live or none.
pub fn law_cleaned(base: &Graph, acts: &[Act])
    requires legal { IsLegal base.now acts.now }
    requires shaped { IsShaped base.now }
    requires sound { IsSound base.now }
    ensures repaired { (desk : ℕ) → IsRepaired base.now acts.now desk
        → (p : ℕ) × IsCleanFrom base.now acts.now p × IsActAt acts.now p desk (event.Gate ScanGate Alone) }
    ensures marking { (desk : ℕ) → IsInPhase acts.now desk Mark
        → (p : ℕ) × IsCleanFrom base.now acts.now p × IsActAt acts.now p desk (event.Gate ScanGate Alone) }
    ensures members { (p layer : ℕ) (at to : Tids) → IsCleanFrom base.now acts.now p → IsLiveAt (after base.now acts.now) at 0
        → HasMember (after base.now acts.now) at layer to → IsLiveAt (after base.now acts.now) to 0 }
    ensures entry { (p : ℕ) (to : Tids) → IsCleanFrom base.now acts.now p → (after base.now acts.now).entry ≡ Some to
        → IsLiveAt (after base.now acts.now) to 0 }
{}

/// Worked examples of the words, where they hold and where they do not. Two nodes stand at the places 1/1, which is the entry point,
/// and 1/3; nothing stands at 1/5.
pub fn law_examples()
    // A live node that names a doomed one.
    ensures sound { IsSound names_doomed }
    // A doomed node that is not reached may name anything.
    ensures sound_unreached { IsSound (pair (live nobody) (doomed (naming third))) }
    // A live node names a deleted one; or a doomed one, which names a place where nothing stands; or in layer 1 a node of level 0.
    ensures not_sound_deleted { IsSound (pair (live (naming second)) (deleted nobody)) → ⊥ }
    ensures not_sound_missing { IsSound (pair (live (naming second)) (doomed (naming third))) → ⊥ }
    ensures not_sound_low { IsSound (pair (high_naming second) (live nobody)) → ⊥ }

    // At position 1 the entry point names 1/3, and at position 2 nothing does. A scan that began by act 2 has not touched it.
    ensures touched { IsTouchedAt names_doomed scans 0 1 second }
    ensures not_touched { IsTouchedAt names_doomed scans 0 2 second → ⊥ }
    ensures not_touched_later { IsTouched names_doomed scans 2 second → ⊥ }

    // Act 1 is a Drop.
    ensures behind { IsBehindDrops drops 2 }
    ensures not_behind { IsBehindDrops drops 0 → ⊥ }

    // A layer that names a doomed node is not clean, and one that names a live node is.
    ensures clean { IsCleanAt (pair (live (naming second)) (live nobody)) first 0 }
    ensures not_clean { IsCleanAt names_doomed first 0 → ⊥ }
    // Act 1 takes away the slot that named a doomed node.
    ensures clean_from { IsCleanFrom names_doomed repairs 2 }
    ensures not_clean_from { IsCleanFrom names_doomed repairs 1 → ⊥ }
{}
