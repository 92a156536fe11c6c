//! What the definitions of the graph and of its histories mean: laws. A function here does no work.

ghost use Rattle.std.specs.Prelude.{◌≡◌, ◌≢◌, ◌⊎◌, ℕ, ◌++◌, ◌∷◌, [], true, false, take, slice_get, Some, None, List, Bool, Option, ◌≤◌, ◌↔◌, ◌<◌};
ghost use Rattle.std.specs.Prelude.{◌+◌, ◌*◌, ◌-◌, filter, length, Contains};
ghost use Rattle.vec_names.specs.declared.tid.Tid.{Tid as Tids};
ghost use Rattle.vec_names.specs.Levels.{most_level};
ghost use Rattle.vec_history.specs.declared.event.Act.{Act};
ghost use Rattle.vec_history.specs.declared.event.Event.{Event as Events};
ghost use Rattle.vec_graph.specs.Asking.{IsAsked, IsGranted, IsOfAll, StandsSo};
ghost use Rattle.vec_names.specs.declared.heap_id.HeapId.{HeapId as HeapIds};
ghost use Rattle.vec_graph.specs.declared.graph.Graph.{Graph as Graphs};
ghost use Rattle.vec_graph.specs.declared.node.Node.{Node};
ghost use Rattle.vec_graph.specs.declared.place.Place.{Place as Places};
ghost use Rattle.vec_history.specs.Settling.{is_lasting};
ghost use Rattle.vec_graph.specs.Graph.{node_at, HasAllSlots, IsLive, IsLiveAt, IsDoomed, IsDoomedAt, HasLevel, IsMember, layer_slots, slot_layer, entries};
ghost use Rattle.list_values.specs.Masks.{kept};
ghost use Rattle.index_sizes.specs.Sizes.{next_version};
ghost use Rattle.vec_graph.specs.Effect.{NewNode, put_of, effect, after, state_after, AreIdsChanged};
ghost use Rattle.vec_history.specs.declared.event.Event.TheVariants as event;
ghost use Rattle.vec_history.specs.declared.gate.Gate.TheVariants.{Update};
ghost use Rattle.vec_history.specs.declared.gate.Hold.TheVariants.{Alone};
ghost use Rattle.vec_history.specs.declared.stage.Stage.{Stage as Stages};
ghost use Rattle.vec_history.specs.Acts.{act_of, NoneFrom};
ghost use Rattle.vec_history.specs.Gates.{IsOfGate, HoldsAs};
ghost use Rattle.vec_history.specs.Phases.{IsDrop, IsOfVacuum, IsInPhase};
ghost use Rattle.vec_graph.specs.Knowing.{Knows};
ghost use Rattle.vec_graph.specs.Shaped.{IsShaped};
ghost use Rattle.vec_graph.specs.Lasting.{IsMarkAt, IsIdsEndAt, IsSameAt, HasIdsAt};
ghost use Rattle.vec_graph.specs.Places.{place_on, new_place, element_need, list_need, fits_one_page, IsOnBlocks, IsFree};
ghost use Rattle.vec_graph.specs.Rules.{IsPutAllowed, IsEventAllowed, IsVacuumEndAllowed, IsCancelAllowed};
ghost use Rattle.vec_graph.specs.Legal.{IsAllowed, IsLegal};
ghost use Rattle.vec_graph.specs.Examples.{first_insert, idle_vacuum};
ghost use Rattle.std.specs.FinMap as map;

use crate::graph::Graph;
use index_sizes::MOST_BITS;
use vec_history::Act;

/// The members of a layer, by the layer of each slot, are those that the layer's part
/// of the slots names.
pub fn law_layers()
    ensures { (m level layer : ℕ) (slots : List (Option Tids)) (to : Tids) → 1 ≤ m → layer ≤ level
        → IsMember m level slots layer to ↔ Contains (layer_slots m level layer slots) (Some to) }
{}

/// A node is live, or doomed, or deleted, and not two of these; and one that has
/// ids and is not deleted is live.
pub fn law_live()
    ensures one { (n : Node) → IsLive n ⊎ (IsDoomed n ⊎ (n.deleted ≡ true)) }
    ensures live_or_doomed { (n : Node) → IsLive n → IsDoomed n → ⊥ }
    ensures live_or_deleted { (n : Node) → IsLive n → n.deleted ≡ true → ⊥ }
    ensures doomed_or_deleted { (n : Node) → IsDoomed n → n.deleted ≡ true → ⊥ }
    ensures with_ids { (n : Node) → n.deleted ≡ false → n.ids ≢ [] → IsLive n }
{}

/// After any acts, an act that is allowed and puts no node, joins no id and drops
/// none leaves the entries as they are.
pub fn law_entries(base: &Graph, acts: &[Act])
    ensures { (a : Act) → IsAllowed base.now acts.now a
        → AreIdsChanged a.event ⊎ (entries (effect 255 a.event (after base.now acts.now)) ≡ entries (after base.now acts.now)) }
{}

/// A state whose nodes stand on its blocks keeps them so by any act; and a node is put only where none stands or a
/// deleted one of its level, so it takes no other node's place.
pub fn law_places(base: &Graph, acts: &[Act])
    requires { IsOnBlocks (after base.now acts.now) }
    ensures on_blocks { (a : Act) → IsOnBlocks (after base.now (acts.now ++ a ∷ [])) }
    ensures free { (desk : ℕ) (new : NewNode) → IsPutAllowed base.now acts.now desk new
        → IsFree (after base.now acts.now) new.at new.level }
{}

/// A place on a block is on that block, and where a node stands there, that is used anew with its list place and
/// version. A slot that is counted within a layer is one of that layer, counted over the whole tuple. The state after any
/// acts is what their lasting events make of the base.
pub fn law_told(base: &Graph, acts: &[Act])
    ensures on_block { (b level : ℕ) (place : Places) → place_on base.now b level ≡ Some place → place.at.block ≡ b }
    ensures anew { (b level : ℕ) (place : Places) (n : Node) → place_on base.now b level ≡ Some place → node_at base.now place.at ≡ Some n
        → (n.list_at ≡ place.list_at) × (n.version ≡ place.version) }
    ensures slot { (m level layer s : ℕ) → layer ≤ level → s < m → slot_layer m level ((level - layer) * m + s) ≡ layer }
    ensures lowest { (m level s : ℕ) → 1 ≤ m → slot_layer m level (level * m + s) ≡ 0 }
    ensures by_lasting { after base.now acts.now ≡ after base.now (filter (λ a. is_lasting a.event) acts.now) }
{}

/// Of a shaped graph each node stands on its blocks and has all slots of its level; and each act that is allowed
/// keeps a graph shaped.
pub fn law_shaped(base: &Graph, acts: &[Act])
    ensures on_blocks { IsShaped base.now → IsOnBlocks base.now }
    ensures all_slots { IsShaped base.now → HasAllSlots base.now }
    ensures kept { IsLegal base.now acts.now → IsShaped base.now → (n : ℕ) → IsShaped (state_after base.now acts.now n) }
{}

/// What lasts of a node of a legal history from a position at which nodes stand on their blocks: level and list place
/// always; version, bits, and that it is not deleted, while the place gets no Mark; the ids, with more behind them, while
/// it gets no Drop either; that it is doomed while it gets no Mark, and live while there is no Drop.
pub fn law_lasting(base: &Graph, acts: &[Act])
    requires { IsLegal base.now acts.now }
    ensures placed { (p level : ℕ) (at list_at : Tids) → p ≤ length acts.now → IsOnBlocks (state_after base.now acts.now p)
        → StandsSo (state_after base.now acts.now p) at list_at level → StandsSo (after base.now acts.now) at list_at level }
    ensures same { (p : ℕ) (at : Tids) (was : Node) → p ≤ length acts.now → IsOnBlocks (state_after base.now acts.now p)
        → NoneFrom acts.now p (λ a. IsMarkAt at a.event) → node_at (state_after base.now acts.now p) at ≡ Some was → was.deleted ≡ false
        → IsSameAt (after base.now acts.now) at was }
    ensures ids { (p : ℕ) (at : Tids) (ids : List HeapIds) → p ≤ length acts.now → IsOnBlocks (state_after base.now acts.now p)
        → NoneFrom acts.now p (λ a. IsIdsEndAt at a.event) → HasIdsAt (state_after base.now acts.now p) at ids
        → HasIdsAt (after base.now acts.now) at ids }
    ensures doomed { (p : ℕ) (at : Tids) → p ≤ length acts.now → IsOnBlocks (state_after base.now acts.now p)
        → NoneFrom acts.now p (λ a. IsMarkAt at a.event) → IsDoomedAt (state_after base.now acts.now p) at
        → IsDoomedAt (after base.now acts.now) at }
    ensures live { (p layer : ℕ) (at : Tids) → p ≤ length acts.now → IsOnBlocks (state_after base.now acts.now p)
        → NoneFrom acts.now p (λ a. IsDrop a.event) → IsLiveAt (state_after base.now acts.now p) at layer
        → IsLiveAt (after base.now acts.now) at layer }
{}

/// What a desk has by its own acts lasts while it goes on: what it knows until its own next act of Update, and its
/// phase until it ends that itself. A node that it puts it knows up to its level.
pub fn law_own(base: &Graph, acts: &[Act])
    ensures knows { (n desk layer : ℕ) (at : Tids) → n ≤ length acts.now
        → NoneFrom acts.now n (λ a. (a.desk ≡ desk) × IsOfGate Update a.event)
        → Knows base.now (take n acts.now) desk at layer → Knows base.now acts.now desk at layer }
    ensures put { (desk : ℕ) (new : NewNode) → IsPutAllowed base.now acts.now desk new
        → Knows base.now (acts.now ++ act_of desk (put_of new) ∷ []) desk new.at new.level }
    ensures phase { IsLegal base.now acts.now → (n desk : ℕ) (stage : Stages) → n ≤ length acts.now
        → NoneFrom acts.now n (λ a. (a.desk ≡ desk) × IsOfVacuum a.event) → IsInPhase (take n acts.now) desk stage
        → IsInPhase acts.now desk stage }
{}

/// What a vacuum may rest on from a position in one of its phases until it ends that, of a legal history whose nodes
/// stand on their blocks there: live nodes stay live and no node becomes doomed, but for its own Drops; doomed
/// nodes stay so, but for its own Marks. The maker of a phase may end it in just one way. And while a desk holds Update
/// alone, no other desk makes a node live.
pub fn law_vacuum(base: &Graph, acts: &[Act])
    requires { IsLegal base.now acts.now }
    ensures live { (n desk layer : ℕ) (stage : Stages) (at : Tids) → n ≤ length acts.now → IsOnBlocks (state_after base.now acts.now n)
        → IsInPhase (take n acts.now) desk stage → NoneFrom acts.now n (λ a. (a.desk ≡ desk) × IsOfVacuum a.event)
        → NoneFrom acts.now n (λ a. (a.desk ≡ desk) × IsDrop a.event)
        → IsLiveAt (state_after base.now acts.now n) at layer → IsLiveAt (after base.now acts.now) at layer }
    ensures no_more_doomed { (n desk : ℕ) (stage : Stages) (at : Tids) → n ≤ length acts.now
        → IsOnBlocks (state_after base.now acts.now n)
        → IsInPhase (take n acts.now) desk stage → NoneFrom acts.now n (λ a. (a.desk ≡ desk) × IsOfVacuum a.event)
        → NoneFrom acts.now n (λ a. (a.desk ≡ desk) × IsDrop a.event)
        → IsDoomedAt (after base.now acts.now) at → IsDoomedAt (state_after base.now acts.now n) at }
    ensures doomed { (n desk : ℕ) (stage : Stages) (at : Tids) → n ≤ length acts.now → IsOnBlocks (state_after base.now acts.now n)
        → IsInPhase (take n acts.now) desk stage → NoneFrom acts.now n (λ a. (a.desk ≡ desk) × IsOfVacuum a.event)
        → NoneFrom acts.now n (λ a. (a.desk ≡ desk) × IsMarkAt at a.event)
        → IsDoomedAt (state_after base.now acts.now n) at → IsDoomedAt (after base.now acts.now) at }
    ensures ends { (desk : ℕ) (stage : Stages) → IsInPhase acts.now desk stage
        → IsVacuumEndAllowed base.now acts.now desk ⊎ IsCancelAllowed base.now acts.now desk stage }
    ensures ends_once { (desk : ℕ) (stage : Stages) → IsVacuumEndAllowed base.now acts.now desk
        → IsCancelAllowed base.now acts.now desk stage → ⊥ }
    ensures no_more_live { (desk : ℕ) (at : Tids) (a : Act) → IsOnBlocks (after base.now acts.now) → IsAllowed base.now acts.now a
        → a.desk ≢ desk
        → HoldsAs acts.now desk Update Alone → IsLiveAt (after base.now (acts.now ++ a ∷ [])) at 0
        → IsLiveAt (after base.now acts.now) at 0 }
{}

/// Where the nodes of the graph at a position stand on its blocks, a place at which a node stands there has one from
/// then on in a legal history, and of the same level.
pub fn law_levels(base: &Graph, acts: &[Act])
    requires { IsLegal base.now acts.now }
    ensures { (n level : ℕ) (at : Tids) → IsOnBlocks (state_after base.now acts.now n)
        → HasLevel (state_after base.now acts.now n) at level → HasLevel (after base.now acts.now) at level }
{}

/// Worked examples of the definitions.
pub fn law_examples()
    // The element of 4 bits has 81 bytes and the list of a node of level 0, where m is 2, has 28, each
    // rounded up to eights and with an item pointer of 4; they fit one page.
    ensures small { (g : Graphs) → g.params.bits ≡ 4 → g.params.m ≡ 2
        → (element_need g ≡ 92) × (list_need g 0 ≡ 36) × (fits_one_page g 0 ≡ true) }

    // The longest values and lists do not fit one page together.
    ensures large { (g : Graphs) → g.params.bits ≡ MOST_BITS → g.params.m ≡ 100
        → (element_need g ≡ 8084) × (list_need g 0 ≡ 1212) × (fits_one_page g 0 ≡ false) }

    // Of the six slots of a node of level 1, where m is 2, the first two are layer 1's.
    ensures layers { (slot_layer 2 1 0 ≡ 1) × (slot_layer 2 1 1 ≡ 1) × (slot_layer 2 1 2 ≡ 0) × (slot_layer 2 1 5 ≡ 0) }
    ensures levels { (most_level 2 ≡ 255) × (most_level 16 ≡ 82) × (most_level 100 ≡ 11) }

    // The mask 5 names the first id and the third.
    ensures kept_ids { (a b c : HeapIds) → kept 5 (a ∷ b ∷ c ∷ []) ≡ b ∷ [] }
    ensures versions { (next_version 255 15 ≡ 16) × (next_version 255 255 ≡ 1) × (next_version 15 15 ≡ 1) }
{}

/// In an index of one block and with m 2 the first insert, as an index makes it, is a
/// legal history, with any value of the index's length.
pub fn law_first_insert(base: &Graph)
    requires one_block { base.now.blocks ≡ 1 }
    requires m_2 { base.now.params.m ≡ 2 }
    ensures { (desk : ℕ) (at list_at : Tids) (id : HeapIds) (bits : List Bool) → length bits ≡ base.now.params.bits
        → new_place base.now 0 ≡ Some (record { at = at; list_at = list_at; version = 1 })
        → IsLegal base.now (first_insert desk at list_at id bits) }
{}

/// A vacuum of an index that has no node, with its three phases and both barriers, is
/// a legal history.
pub fn law_idle_vacuum(base: &Graph)
    requires no_nodes { base.now.nodes ≡ map.empty }
    requires no_entry { base.now.entry ≡ None }
    ensures { (desk : ℕ) → IsLegal base.now (idle_vacuum desk) }
{}

/// What the rules ask of a desk's next event, other than what a step answers by a word, holds on while other desks act,
/// up to the desk's own next act. Of the graph where it was so it is asked that its nodes stand on its blocks.
pub fn law_later(base: &Graph, acts: &[Act])
    requires { IsLegal base.now acts.now }
    ensures { (n desk : ℕ) (e : Events) → IsOnBlocks (state_after base.now acts.now n)
        → ((k : ℕ) (a : Act) → n ≤ k → slice_get acts.now k ≡ Some a → a.desk ≢ desk)
        → IsAsked base.now (take n acts.now) desk e → IsAsked base.now acts.now desk e }
{}

/// Where each node has the slots of its level, an event that the rules allow meets what they ask so; and one that
/// meets it and is granted what a step's words say is allowed. Settling and faults are not spoken of.
pub fn law_asked(base: &Graph, acts: &[Act])
    requires { HasAllSlots (after base.now acts.now) }
    ensures asked { (desk : ℕ) (e : Events) → (IsOfAll e → ⊥) → IsEventAllowed base.now acts.now desk e
        → IsAsked base.now acts.now desk e }
    ensures allowed { (desk : ℕ) (e : Events) → IsAsked base.now acts.now desk e → IsGranted base.now acts.now desk e
        → IsEventAllowed base.now acts.now desk e }
{}
