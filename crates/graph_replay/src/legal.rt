//! What a replay of a legal history leaves: a law, and no work.

ghost use Rattle.std.specs.Prelude.{◌≡◌, ◌≤◌, ◌<◌, ◌^◌, ℕ, List, length, take, All};
ghost use Rattle.vec_history.specs.declared.event.Act.{Act as Acts};
ghost use Rattle.page_bytes.specs.Content.{Content, IsPage};
ghost use Rattle.vec_graph.specs.declared.graph.Graph.{Graph};
ghost use Rattle.vec_graph.specs.Effect.{after, state_after};
ghost use Rattle.vec_graph.specs.Legal.{IsLegal};
ghost use Rattle.graph_pages.specs.Standing.{Stands};
ghost use Rattle.graph_pages.specs.Effects.{format_in};
ghost use Rattle.page_redo.specs.Replaying.{logged, Replayed};
ghost use Rattle.graph_replay.specs.Replaying.{FollowInTurn};

use index_sizes::MOST_BLOCKS;

/// A law, and no work. The lasting events of a legal history follow in turn on pages that stand for the graph that it begins at. So
/// there are the pages after their replay, which stand for the graph after the history, whatever numbers the pages had before. After
/// each front of the history the pages replayed so far stand for the graph there. Of the pages after a replay there is just one list
/// (`law_replay`).
pub fn law_legal_replay()
    ensures follow { (pages : List Content) (base : Graph) (acts : List Acts) (number : ℕ) → length pages ≤ MOST_BLOCKS
        → All IsPage pages → Stands pages base → IsLegal base acts → number < 2 ^ 64
        → FollowInTurn 255 number (logged acts) pages base }
    ensures there { (pages : List Content) (base : Graph) (acts : List Acts) (number : ℕ) → length pages ≤ MOST_BLOCKS
        → All IsPage pages → Stands pages base → IsLegal base acts → number < 2 ^ 64
        → (now : List Content) × Replayed base.params 255 number (logged acts) pages now }
    ensures stands { (pages now : List Content) (base : Graph) (acts : List Acts) (number : ℕ) → length pages ≤ MOST_BLOCKS
        → All IsPage pages → Stands pages base → IsLegal base acts → number < 2 ^ 64
        → Replayed base.params 255 number (logged acts) pages now
        → Stands now (after base acts) × All IsPage now × (length now ≤ MOST_BLOCKS) × (format_in now ≡ format_in pages) }
    ensures fronts { (pages now : List Content) (base : Graph) (acts : List Acts) (number n : ℕ) → length pages ≤ MOST_BLOCKS
        → All IsPage pages → Stands pages base → IsLegal base acts → number < 2 ^ 64
        → Replayed base.params 255 number (logged acts) pages now
        → (mid : List Content) × Replayed base.params 255 number (logged (take n acts)) pages mid × Stands mid (state_after base acts n) }
{}
