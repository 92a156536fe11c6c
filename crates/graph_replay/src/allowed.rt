//! That what the rules allow can be done on the pages: laws, and no work.

ghost use Rattle.std.specs.Prelude.{◌≡◌, ◌≤◌, ℕ, true, List, length, All};
ghost use Rattle.vec_history.specs.declared.event.Event.{Event as Events};
ghost use Rattle.vec_history.specs.declared.event.Act.{Act as Acts};
ghost use Rattle.vec_history.specs.Settling.{is_lasting};
ghost use Rattle.page_bytes.specs.Content.{Content, IsPage};
ghost use Rattle.vec_event.specs.Spelling.{IsWritable};
ghost use Rattle.vec_graph.specs.declared.graph.Graph.{Graph};
ghost use Rattle.vec_graph.specs.Places.{IsOnBlocks};
ghost use Rattle.vec_graph.specs.Effect.{after};
ghost use Rattle.vec_graph.specs.Rules.{IsEventAllowed};
ghost use Rattle.vec_graph.specs.Legal.{IsLegal};
ghost use Rattle.graph_pages.specs.Standing.{Stands};
ghost use Rattle.page_redo.specs.Fitting.{FitsEach};
ghost use Rattle.graph_pages.specs.Following.{Follows};

use index_sizes::MOST_BLOCKS;

/// A law, and no work. A lasting event that a desk may make after a legal history follows on pages that stand for the graph there, fits
/// each page that it touches, and can be written to a log. So redo of it is never refused. Of the graph that the history begins at it is
/// asked that its nodes stand on its blocks.
pub fn law_allowed()
    ensures { (pages : List Content) (base : Graph) (acts : List Acts) (desk : ℕ) (event : Events) → length pages ≤ MOST_BLOCKS
        → All IsPage pages → IsOnBlocks base → IsLegal base acts → Stands pages (after base acts) → is_lasting event ≡ true
        → IsEventAllowed base acts desk event
        → Follows pages (after base acts) event × FitsEach pages (after base acts).params event × IsWritable event }
{}
