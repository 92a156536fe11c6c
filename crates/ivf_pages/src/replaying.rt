//! Replay of a log on the pages of an index of lists: laws, and no work.

ghost use Rattle.std.specs.Prelude.{◌≡◌, ◌<◌, ◌≤◌, ◌^◌, ℕ, List, All, length};
ghost use Rattle.vec_names.specs.declared.params.Params.{Params as AnyParams};
ghost use Rattle.vec_history.specs.declared.event.Event.{Event as Events};
ghost use Rattle.vec_history.specs.declared.event.Act.{Act};
ghost use Rattle.page_bytes.specs.Content.{Content, IsPage};
ghost use Rattle.ivf_graph.specs.declared.graph.IvfGraph.{IvfGraph};
ghost use Rattle.ivf_graph.specs.Effect.{after as after_acts};
ghost use Rattle.ivf_graph.specs.Legal.{IsLegal};
ghost use Rattle.ivf_pages.specs.Standing.{Stands};
ghost use Rattle.page_redo.specs.Replaying.{logged, Replayed};
ghost use Rattle.ivf_pages.specs.Replaying.{effects, FollowInTurn};

use index_sizes::MOST_BLOCKS;

/// A law, and no work. Events that follow in turn, replayed on pages that stand for an index, leave pages that stand for the index
/// after them, have bytes and are at most 32,768. There is just one such list of pages. What numbers pages have before is not asked.
pub fn law_replay()
    ensures stands { (p : AnyParams) (wrap number : ℕ) (events : List Events) (pages after : List Content) (g : IvfGraph)
        → length pages ≤ MOST_BLOCKS → All IsPage pages → Stands p pages g → number < 2 ^ 64 → FollowInTurn events g
        → Replayed p wrap number events pages after
        → Stands p after (effects events g) × All IsPage after × (length after ≤ MOST_BLOCKS) }
    ensures once { (p : AnyParams) (wrap number : ℕ) (events : List Events) (pages after again : List Content)
        → Replayed p wrap number events pages after → Replayed p wrap number events pages again → after ≡ again }
{}

/// A law, and no work. The lasting acts of a legal history follow in turn (`follow`). On pages that stand for its base they can be
/// replayed (`there`), and leave pages that stand for the index after the history (`stands`).
pub fn law_legal_replay()
    ensures there { (p : AnyParams) (wrap number : ℕ) (acts : List Act) (pages : List Content) (base : IvfGraph)
        → length pages ≤ MOST_BLOCKS → All IsPage pages → Stands p pages base → number < 2 ^ 64 → IsLegal base acts
        → (after : List Content) × Replayed p wrap number (logged acts) pages after }
    ensures follow { (base : IvfGraph) (acts : List Act) → IsLegal base acts → FollowInTurn (logged acts) base }
    ensures stands { (p : AnyParams) (wrap number : ℕ) (acts : List Act) (pages after : List Content) (base : IvfGraph)
        → length pages ≤ MOST_BLOCKS → All IsPage pages → Stands p pages base → number < 2 ^ 64 → IsLegal base acts
        → Replayed p wrap number (logged acts) pages after → Stands p after (after_acts base acts) }
{}
