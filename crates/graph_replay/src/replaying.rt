//! What a replay of events makes of pages that stand for a graph: laws, and no work.

ghost use Rattle.std.specs.Prelude.{◌≡◌, ◌≤◌, ◌<◌, ◌^◌, ◌+◌, ◌%◌, ◌++◌, ℕ, List, length, All};
ghost use Rattle.vec_names.specs.declared.params.Params.{Params as AnyParams};
ghost use Rattle.vec_history.specs.declared.event.Event.{Event as Events};
ghost use Rattle.page_bytes.specs.Content.{Content, IsPage};
ghost use Rattle.vec_graph.specs.declared.graph.Graph.{Graph};
ghost use Rattle.graph_pages.specs.Standing.{Stands};
ghost use Rattle.graph_pages.specs.Effects.{format_in};
ghost use Rattle.page_redo.specs.Replaying.{Replayed};
ghost use Rattle.graph_replay.specs.Replaying.{effects, FollowInTurn};

use index_sizes::MOST_BLOCKS;

/// A law, and no work. Where events follow in turn on pages that stand for a graph, there are the pages after their replay, just one
/// list of them, to the byte. These stand for the graph after the events, have bytes and the same format, and are at most 32,768. That
/// is so whatever the version to wrap at, of any log.
pub fn law_replay()
    ensures there { (pages : List Content) (g : Graph) (events : List Events) (wrap number : ℕ) → length pages ≤ MOST_BLOCKS
        → All IsPage pages → Stands pages g → number < 2 ^ 64 → FollowInTurn wrap number events pages g
        → (after : List Content) × Replayed g.params wrap number events pages after }
    ensures once { (params : AnyParams) (events : List Events) (wrap number : ℕ) (pages after again : List Content)
        → Replayed params wrap number events pages after → Replayed params wrap number events pages again → after ≡ again }
    ensures stands { (pages after : List Content) (g : Graph) (events : List Events) (wrap number : ℕ) → length pages ≤ MOST_BLOCKS
        → All IsPage pages → Stands pages g → number < 2 ^ 64 → FollowInTurn wrap number events pages g
        → Replayed g.params wrap number events pages after → Stands after (effects wrap events g) }
    ensures kept { (pages after : List Content) (g : Graph) (events : List Events) (wrap number : ℕ) → length pages ≤ MOST_BLOCKS
        → All IsPage pages → Stands pages g → number < 2 ^ 64 → FollowInTurn wrap number events pages g
        → Replayed g.params wrap number events pages after
        → All IsPage after × (length after ≤ MOST_BLOCKS) × (format_in after ≡ format_in pages) }
{}

/// A law, and no work. A replay of events is a replay of the first of them and then of the others, with the number that is next then,
/// and the other way round. So each front of a log is replayed on the way.
pub fn law_fronts()
    ensures parted { (params : AnyParams) (first others : List Events) (wrap number : ℕ) (pages after : List Content) → number < 2 ^ 64
        → Replayed params wrap number (first ++ others) pages after
        → (mid : List Content) × Replayed params wrap number first pages mid
        × Replayed params wrap ((number + length first) % 2 ^ 64) others mid after }
    ensures joined { (params : AnyParams) (first others : List Events) (wrap number : ℕ) (pages mid after : List Content)
        → number < 2 ^ 64 → Replayed params wrap number first pages mid
        → Replayed params wrap ((number + length first) % 2 ^ 64) others mid after
        → Replayed params wrap number (first ++ others) pages after }
{}
