//! That redo takes an event which puts or changes tuples of a graph, on the pages that stand for that graph: laws, and no work.
//!
//! An event fits where each block that it touches has a page, and redo makes another page of that one. What a law asks is what
//! the rules ask of the node in the graph, as far as redo tests it; of the hint redo asks that it is at most 32,768.

ghost use Rattle.std.specs.Prelude.{◌≡◌, ◌≤◌, ◌<◌, ◌^◌, ℕ, Bool, true, List, All, Option, Some, None, length};
ghost use Rattle.vec_names.specs.declared.tid.Tid.{Tid as Place};
ghost use Rattle.vec_names.specs.declared.heap_id.HeapId.{HeapId};
ghost use Rattle.vec_history.specs.declared.event.Event.TheVariants.{Put, Join, Link, Relist, Drop, Mark, Entry, Hint};
ghost use Rattle.page_bytes.specs.Content.{Content, IsPage};
ghost use Rattle.vec_graph.specs.declared.node.Node.{Node};
ghost use Rattle.vec_graph.specs.declared.graph.Graph.{Graph};
ghost use Rattle.vec_graph.specs.Graph.{node_at};
ghost use Rattle.vec_graph.specs.Rules.{IsThere};
ghost use Rattle.vec_graph.specs.declared.place.Place.{Place as NewPlace};
ghost use Rattle.vec_graph.specs.Places.{new_place};
ghost use Rattle.index_sizes.specs.Sizes.{slots_of_level};
ghost use Rattle.graph_pages.specs.Standing.{Stands};
ghost use Rattle.page_redo.specs.Fitting.{FitsEach};
ghost use Rattle.graph_pages.specs.Fitting.{AreNextPlaces};
ghost use Rattle.page_redo.specs.Growing.{extended};

use index_sizes::{MOST_BLOCKS, MOST_SLOTS};

/// A law, and no work. A new node fits the pages of a node that is deleted, whose places, version and level it takes, where its value is
/// of the index's length and it has the slots of its level.
pub fn law_put_again_fits()
    ensures { (pages : List Content) (g : Graph) (at list_at : Place) (version level : ℕ) (id : HeapId) (bits : List Bool)
        (lists : List (Option Place)) (n : Node) → All IsPage pages → Stands pages g → node_at g at ≡ Some n → n.list_at ≡ list_at
        → n.deleted ≡ true → n.version ≡ version → n.level ≡ level → length bits ≡ g.params.bits
        → length lists ≡ slots_of_level g.params.m level
        → FitsEach pages g.params (Put at list_at version level id bits lists) }
{}

/// A law, and no work. A new node fits the pages of two places on node pages which are the next on these, fresh ones among them, and
/// have room, where its value is of the index's length and it has the slots of its level, no more than a tuple holds.
pub fn law_put_new_fits()
    ensures { (pages : List Content) (g : Graph) (at list_at : Place) (version level : ℕ) (id : HeapId) (bits : List Bool)
        (lists : List (Option Place)) → All IsPage pages → Stands pages g → 1 ≤ at.block → 1 ≤ list_at.block → 1 ≤ version
        → length bits ≡ g.params.bits → length lists ≡ slots_of_level g.params.m level → length lists ≤ MOST_SLOTS
        → AreNextPlaces (extended (Put at list_at version level id bits lists) pages) at list_at (length bits) (length lists)
        → FitsEach pages g.params (Put at list_at version level id bits lists) }
{}

/// A law, and no work. A new node fits at the place on new blocks that the graph gives a node of its level, where its value is of the
/// index's length and it has the slots of its level, no more than a tuple holds.
pub fn law_put_fresh_fits()
    ensures { (pages : List Content) (g : Graph) (place : NewPlace) (level : ℕ) (id : HeapId) (bits : List Bool)
        (lists : List (Option Place)) → All IsPage pages → Stands pages g → new_place g level ≡ Some place
        → length bits ≡ g.params.bits → length lists ≡ slots_of_level g.params.m level → length lists ≤ MOST_SLOTS
        → FitsEach pages g.params (Put place.at place.list_at place.version level id bits lists) }
{}

/// A law, and no work. A node's deletion fits the pages of its element and of its neighbour tuple, where the node at the place is of
/// the named version and is not deleted, and the neighbour tuple is the node's.
pub fn law_mark_fits()
    ensures { (pages : List Content) (g : Graph) (at list_at : Place) (version : ℕ) (n : Node) → All IsPage pages → Stands pages g
        → IsThere g at version n → n.list_at ≡ list_at → FitsEach pages g.params (Mark at list_at version) }
{}

/// A law, and no work. Another hint fits, where it is a block from 1 to 32,768.
pub fn law_hint_fits()
    ensures { (pages : List Content) (g : Graph) (hint : ℕ) → All IsPage pages → Stands pages g → 1 ≤ hint → hint ≤ MOST_BLOCKS
        → FitsEach pages g.params (Hint hint) }
{}

/// A law, and no work. Another entry point fits, and so does none, where the level is 0.
pub fn law_entry_fits()
    ensures { (pages : List Content) (g : Graph) (to : Option Place) (level : ℕ) → All IsPage pages → Stands pages g
        → (to ≡ None → level ≡ 0) → FitsEach pages g.params (Entry to level) }
{}

/// A law, and no work. A further id of an element fits, where the node at the place is of the named version, is not deleted
/// and has at most 9 ids.
pub fn law_join_fits()
    ensures { (pages : List Content) (g : Graph) (at : Place) (version : ℕ) (id : HeapId) (n : Node) → All IsPage pages
        → Stands pages g → IsThere g at version n → length n.ids ≤ 9 → FitsEach pages g.params (Join at version id) }
{}

/// A law, and no work. That ids of an element go fits, where the node at the place is of the named version and is not
/// deleted, and no bit of the mask is set past the node's ids.
pub fn law_drop_fits()
    ensures { (pages : List Content) (g : Graph) (at : Place) (version gone : ℕ) (n : Node) → All IsPage pages → Stands pages g
        → IsThere g at version n → gone < 2 ^ length n.ids → FitsEach pages g.params (Drop at version gone) }
{}

/// A law, and no work. A slot that comes to name a place fits, where the node at the element's place is of the named version
/// and is not deleted, the neighbour tuple is the node's, and the node has this slot.
pub fn law_link_fits()
    ensures { (pages : List Content) (g : Graph) (at list_at to : Place) (version slot : ℕ) (n : Node) → All IsPage pages
        → Stands pages g → IsThere g at version n → n.list_at ≡ list_at → slot < length n.slots
        → FitsEach pages g.params (Link at list_at version slot to) }
{}

/// A law, and no work. Other slots of a node fit, where the node at the element's place is of the named version and is not
/// deleted, the neighbour tuple is the node's, and the node has as many slots.
pub fn law_relist_fits()
    ensures { (pages : List Content) (g : Graph) (at list_at : Place) (version : ℕ) (lists : List (Option Place)) (n : Node)
        → All IsPage pages → Stands pages g → IsThere g at version n → n.list_at ≡ list_at → length lists ≡ length n.slots
        → FitsEach pages g.params (Relist at list_at version lists) }
{}
