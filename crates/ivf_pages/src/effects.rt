//! What redo of an event makes of the index of lists that the pages stand for: laws, and no work.
//!
//! Redo itself tests the kinds of pages, the length of a value, offsets and room. What a law asks besides is what an event that
//! the rules allow gives.

ghost use Rattle.std.specs.Prelude.{◌≡◌, ◌<◌, ◌≤◌, ◌^◌, ℕ, Bool, List, Some, slice_get, All, Contains, length};
ghost use Rattle.vec_names.specs.declared.heap_id.HeapId.{HeapId};
ghost use Rattle.vec_names.specs.declared.params.Params.{Params as AnyParams};
ghost use Rattle.vec_history.specs.declared.event.Event.{Event as Events};
ghost use Rattle.vec_history.specs.declared.event.Event.TheVariants.{IvfAdd, IvfGrow, IvfDrop, IvfHint};
ghost use Rattle.page_bytes.specs.Content.{Content, IsPage};
ghost use Rattle.ivf_graph.specs.declared.graph.IvfGraph.{IvfGraph};
ghost use Rattle.ivf_graph.specs.Effect.{effect};
ghost use Rattle.ivf_graph.specs.Rules.{IsAimAllowed};
ghost use Rattle.page_redo.specs.Redo.{touched};
ghost use Rattle.page_redo.specs.Growing.{AreAllRedone};
ghost use Rattle.ivf_pages.specs.Standing.{Stands};
ghost use Rattle.ivf_pages.specs.Effects.{RedoIsEffect};
ghost use Rattle.ivf_pages.specs.Following.{IsNextBehind, Follows};

use index_sizes::MOST_BLOCKS;

/// A law, and no work. Redo of a further entry on a page is that event's effect on the index.
pub fn law_add()
    ensures { (p : AnyParams) (pages : List Content) (g : IvfGraph) (block : ℕ) (id : HeapId) (bits : List Bool)
        → RedoIsEffect p pages g (IvfAdd block id bits) }
{}

/// A law, and no work. Redo of entries that go from a page is that event's effect on the index.
pub fn law_drop()
    ensures { (p : AnyParams) (pages : List Content) (g : IvfGraph) (block : ℕ) (gone : List ℕ)
        → RedoIsEffect p pages g (IvfDrop block gone) }
{}

/// A law, and no work. Redo of a list's other aim is that event's effect on the index, where the aim is a block of the list's
/// chain; it has four bytes.
pub fn law_hint()
    ensures { (p : AnyParams) (pages : List Content) (g : IvfGraph) (list block : ℕ) → IsAimAllowed g list block → block < 2 ^ 32
        → RedoIsEffect p pages g (IvfHint list block) }
{}

/// A law, and no work. Redo of a list's new block, on its new page and on that of the block before it, is that event's effect on the
/// index, where the block is the next of all and comes behind the one that ends the list's chain.
pub fn law_grow()
    ensures { (p : AnyParams) (pages after : List Content) (g : IvfGraph) (list last block : ℕ) (id : HeapId) (bits : List Bool)
        (wrap number : ℕ) → All IsPage pages → Stands p pages g → IsNextBehind g list last block
        → AreAllRedone p wrap number (IvfGrow list last block id bits) pages after
        → Stands p after (effect (IvfGrow list last block id bits) g) }
{}

/// A law, and no work. Redo of an event that follows on pages that stand for an index of lists, on all blocks that it touches, is its
/// effect on the index, whatever its kind.
pub fn law_redo()
    ensures { (p : AnyParams) (pages after : List Content) (g : IvfGraph) (event : Events) (wrap number : ℕ)
        → length pages ≤ MOST_BLOCKS → All IsPage pages → Stands p pages g → Follows g event
        → AreAllRedone p wrap number event pages after → Stands p after (effect event g) }
{}

/// A law, and no work. Redo of an event that follows leaves at most 32,768 pages, where there were no more.
pub fn law_blocks()
    ensures { (p : AnyParams) (pages after : List Content) (g : IvfGraph) (event : Events) (wrap number : ℕ)
        → length pages ≤ MOST_BLOCKS → Follows g event → AreAllRedone p wrap number event pages after
        → length after ≤ MOST_BLOCKS }
{}

/// A law, and no work. Redo of an event that follows leaves pages that have bytes, where those before had, and the event's number fits
/// a page. Each page that it touches carries that number.
pub fn law_pages()
    ensures bytes { (p : AnyParams) (pages after : List Content) (g : IvfGraph) (event : Events) (wrap number : ℕ) → All IsPage pages
        → Stands p pages g → Follows g event → number < 2 ^ 64 → AreAllRedone p wrap number event pages after → All IsPage after }
    ensures numbers { (p : AnyParams) (pages after : List Content) (event : Events) (wrap number block : ℕ) (page : Content)
        → AreAllRedone p wrap number event pages after → Contains (touched event p) block → slice_get after block ≡ Some page
        → page.number ≡ number }
{}

/// A law, and no work. Redo of an event that follows leaves block 0: the parameters of the index, and the format of its meta tuple.
pub fn law_root()
    ensures { (p : AnyParams) (pages after : List Content) (g : IvfGraph) (event : Events) (wrap number : ℕ) → Stands p pages g
        → Follows g event → AreAllRedone p wrap number event pages after → slice_get after 0 ≡ slice_get pages 0 }
{}
