//! What redo of an event makes of the graph that the pages stand for: laws, and no work.
//!
//! Redo itself tests versions, deleted states, and the numbers of ids and slots. What a law asks besides is what an event that
//! the rules allow gives.

ghost use Rattle.std.specs.Prelude.{◌≡◌, ◌≤◌, ◌<◌, ◌+◌, ◌++◌, ◌∷◌, [], ℕ, Bool, List, length, Option, Some, None, slice_get, slice_set, replicate};
ghost use Rattle.std.specs.Prelude.{All, Contains, ◌^◌};
ghost use Rattle.vec_names.specs.declared.tid.Tid.{Tid as Place};
ghost use Rattle.vec_names.specs.declared.heap_id.HeapId.{HeapId};
ghost use Rattle.vec_names.specs.declared.params.Params.{Params as AnyParams};
ghost use Rattle.vec_history.specs.declared.event.Event.{Event as Events};
ghost use Rattle.vec_history.specs.declared.event.Event.TheVariants.{Put, Join, Link, Relist, Drop, Mark, Entry, Hint};
ghost use Rattle.page_bytes.specs.Content.{Content, IsPage};
ghost use Rattle.vec_graph.specs.declared.node.Node.{Node};
ghost use Rattle.vec_graph.specs.declared.graph.Graph.{Graph};
ghost use Rattle.vec_graph.specs.Graph.{node_at, HasLevel};
ghost use Rattle.vec_graph.specs.Effect.{effect};
ghost use Rattle.page_redo.specs.Redo.{touched};
ghost use Rattle.graph_pages.specs.Standing.{item_in, Stands};
ghost use Rattle.graph_pages.specs.Effects.{RedoIsEffect, format_in, with_format};
ghost use Rattle.page_redo.specs.Growing.{AreRedone};
ghost use Rattle.vec_tuples.specs.declared.meta.Meta.{Meta as Metas};
ghost use Rattle.page_redo.specs.PageTuples.{meta_at};
ghost use Rattle.graph_pages.specs.Following.{Follows};
ghost use Rattle.page_redo.specs.Growing.{fresh_page, blocks_after, AreAllRedone};

use index_sizes::MOST_BLOCKS;
use page_bytes::PageKind;

/// A law, and no work. Redo of another hint is that event's effect on the graph, where the graph has so many blocks.
pub fn law_hint()
    ensures { (pages : List Content) (g : Graph) (hint : ℕ) → hint ≤ g.blocks → RedoIsEffect pages g (Hint hint) }
{}

/// A law, and no work. Redo of another entry point, or of none, is that event's effect on the graph, where a node of the
/// stated level stands at the entry point.
pub fn law_entry()
    ensures { (pages : List Content) (g : Graph) (to : Option Place) (level : ℕ) → ((at : Place) → to ≡ Some at → HasLevel g at level)
        → RedoIsEffect pages g (Entry to level) }
{}

/// A law, and no work. Redo of a slot that comes to name a place is that event's effect on the graph, where the neighbour
/// tuple is that of the node, and the place is on one of the graph's blocks.
pub fn law_link()
    ensures { (pages : List Content) (g : Graph) (at list_at to : Place) (version slot : ℕ) (n : Node) → node_at g at ≡ Some n
        → n.list_at ≡ list_at → to.block < g.blocks → RedoIsEffect pages g (Link at list_at version slot to) }
{}

/// A law, and no work. Redo of all slots of a node is that event's effect on the graph, where the neighbour tuple is that of
/// the node, and each place that they name is on one of the graph's blocks.
pub fn law_relist()
    ensures { (pages : List Content) (g : Graph) (at list_at : Place) (version : ℕ) (lists : List (Option Place)) (n : Node)
        → node_at g at ≡ Some n → n.list_at ≡ list_at
        → ((slot : ℕ) (to : Place) → slice_get lists slot ≡ Some (Some to) → to.block < g.blocks)
        → RedoIsEffect pages g (Relist at list_at version lists) }
{}

/// A law, and no work. Redo of a further id of an element is that event's effect on the graph.
pub fn law_join()
    ensures { (pages : List Content) (g : Graph) (at : Place) (version : ℕ) (id : HeapId) → RedoIsEffect pages g (Join at version id) }
{}

/// A law, and no work. Redo of an element's ids that go is that event's effect on the graph.
pub fn law_drop()
    ensures { (pages : List Content) (g : Graph) (at : Place) (version gone : ℕ) → RedoIsEffect pages g (Drop at version gone) }
{}

/// A law, and no work. Redo of a node's deletion, on the page of its element and on that of its neighbour tuple, which may be one
/// page, is that event's effect on the graph, where the neighbour tuple is that of the node.
pub fn law_mark()
    ensures { (pages after : List Content) (g : Graph) (at list_at : Place) (version wrap number : ℕ) (n : Node)
        → All IsPage pages → Stands pages g → node_at g at ≡ Some n → n.list_at ≡ list_at
        → AreRedone g.params wrap number (Mark at list_at version) pages after
        → Stands after (effect wrap (Mark at list_at version) g) }
{}

/// A law, and no work. Redo of a new node at the places of another one, which redo asks to be deleted, is that event's effect on the
/// graph, where each place that its slots name is on one of the graph's blocks.
pub fn law_put_again()
    ensures { (pages after : List Content) (g : Graph) (at list_at : Place) (version level : ℕ) (id : HeapId) (bits : List Bool)
        (lists : List (Option Place)) (wrap number : ℕ) (n : Node) → All IsPage pages → Stands pages g
        → node_at g at ≡ Some n → n.list_at ≡ list_at
        → ((slot : ℕ) (to : Place) → slice_get lists slot ≡ Some (Some to) → to.block < g.blocks)
        → AreRedone g.params wrap number (Put at list_at version level id bits lists) pages after
        → Stands after (effect wrap (Put at list_at version level id bits lists) g) }
{}

/// A law, and no work. Redo of a new node at two places where no item stands, on one page or on two, which the event may make, is that
/// event's effect on the graph, where each place that its slots name is on one of the blocks that there are after it. The version and
/// the level have one byte each.
pub fn law_put_new()
    ensures { (pages after : List Content) (g : Graph) (at list_at : Place) (version level : ℕ) (id : HeapId) (bits : List Bool)
        (lists : List (Option Place)) (wrap number : ℕ) → length pages ≤ MOST_BLOCKS → All IsPage pages → Stands pages g
        → version ≤ 255 → level ≤ 255 → item_in pages at ≡ None → item_in pages list_at ≡ None
        → ((slot : ℕ) (to : Place) → slice_get lists slot ≡ Some (Some to)
        → to.block < blocks_after (Put at list_at version level id bits lists) (length pages))
        → AreAllRedone g.params wrap number (Put at list_at version level id bits lists) pages after
        → Stands after (effect wrap (Put at list_at version level id bits lists) g) }
{}

/// A law, and no work. Of an event that touches one block, which has a page, the pages after redo stand for the graph after it, where
/// its redo is its effect.
pub fn law_one_block()
    ensures { (pages after : List Content) (g : Graph) (event : Events) (wrap number block : ℕ) → All IsPage pages → Stands pages g
        → touched event g.params ≡ block ∷ [] → block < length pages → RedoIsEffect pages g event
        → AreRedone g.params wrap number event pages after → Stands after (effect wrap event g) }
{}

/// A law, and no work. Redo of an event that follows on pages that stand for a graph, on all blocks that it touches, is its effect on
/// the graph, whatever its kind.
pub fn law_redo()
    ensures { (pages after : List Content) (g : Graph) (event : Events) (wrap number : ℕ) → length pages ≤ MOST_BLOCKS
        → All IsPage pages → Stands pages g → Follows pages g event → AreAllRedone g.params wrap number event pages after
        → Stands after (effect wrap event g) }
{}

/// A law, and no work. Redo of an event that follows leaves at most 32,768 pages, where there were no more.
pub fn law_blocks()
    ensures { (pages after : List Content) (g : Graph) (event : Events) (wrap number : ℕ) → length pages ≤ MOST_BLOCKS
        → Follows pages g event → AreAllRedone g.params wrap number event pages after → length after ≤ MOST_BLOCKS }
{}

/// A law, and no work. Redo keeps the format of the meta tuple, whatever the event. The level of an entry has one byte.
pub fn law_format()
    ensures { (pages after : List Content) (g : Graph) (event : Events) (wrap number : ℕ) → All IsPage pages → Stands pages g
        → ((to : Option Place) (level : ℕ) → event ≡ Entry to level → level ≤ 255)
        → AreAllRedone g.params wrap number event pages after → format_in after ≡ format_in pages }
{}

/// A law, and no work. Redo of an event gives just one list of pages.
pub fn law_once()
    ensures { (params : AnyParams) (wrap number : ℕ) (event : Events) (pages after again : List Content)
        → AreRedone params wrap number event pages after → AreRedone params wrap number event pages again → after ≡ again }
{}

/// A law, and no work. With fresh pages behind them, pages stand for the same graph, which has more blocks.
pub fn law_fresh()
    ensures { (pages : List Content) (g : Graph) (count : ℕ) → Stands pages g
        → Stands (pages ++ replicate count (fresh_page PageKind.Hnsw)) (record g { blocks = g.blocks + count }) }
{}

/// A law, and no work. Redo of an event that follows leaves pages that have bytes, where those before had, and the event's number fits
/// a page. Each page that it touches carries that number.
pub fn law_pages()
    ensures bytes { (pages after : List Content) (g : Graph) (event : Events) (wrap number : ℕ) → All IsPage pages → Stands pages g
        → Follows pages g event → number < 2 ^ 64 → AreAllRedone g.params wrap number event pages after → All IsPage after }
    ensures numbers { (pages after : List Content) (g : Graph) (event : Events) (wrap number block : ℕ) (page : Content)
        → AreAllRedone g.params wrap number event pages after → Contains (touched event g.params) block
        → slice_get after block ≡ Some page → page.number ≡ number }
{}

/// A law, and no work. Pages of which the meta tuple gets another format, 1 or 2, stand for the same graph, and have bytes.
pub fn law_other_format()
    ensures stands { (pages : List Content) (g : Graph) (page : Content) (meta : Metas) (format number : ℕ) → All IsPage pages
        → Stands pages g → slice_get pages 0 ≡ Some page → meta_at page ≡ Some meta → 1 ≤ format → format ≤ 2
        → Stands (slice_set pages 0 (with_format format number page meta)) g }
    ensures bytes { (pages : List Content) (g : Graph) (page : Content) (meta : Metas) (format number : ℕ) → All IsPage pages
        → Stands pages g → slice_get pages 0 ≡ Some page → meta_at page ≡ Some meta → 1 ≤ format → format ≤ 2 → number < 2 ^ 64
        → All IsPage (slice_set pages 0 (with_format format number page meta)) }
    ensures format { (pages : List Content) (g : Graph) (page : Content) (meta : Metas) (format number : ℕ) → All IsPage pages
        → Stands pages g → slice_get pages 0 ≡ Some page → meta_at page ≡ Some meta → 1 ≤ format → format ≤ 2
        → format_in (slice_set pages 0 (with_format format number page meta)) ≡ Some format }
{}
