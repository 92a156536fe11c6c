//! That redo takes an event which the rules allow, on the pages that stand for the index: laws, and no work.
//!
//! An event fits where each block that it touches has a page, and redo makes another page of that one. So redo is never unfit for
//! an event that a desk may make; and a log can hold it.

ghost use Rattle.std.specs.Prelude.{◌≡◌, ◌≤◌, ℕ, true, List, All, length};
ghost use Rattle.vec_names.specs.declared.params.Params.{Params as AnyParams};
ghost use Rattle.vec_history.specs.declared.event.Event.{Event as Events};
ghost use Rattle.vec_history.specs.declared.event.Act.{Act};
ghost use Rattle.vec_history.specs.Settling.{is_lasting};
ghost use Rattle.page_bytes.specs.Content.{Content, IsPage};
ghost use Rattle.vec_event.specs.Spelling.{IsWritable};
ghost use Rattle.ivf_graph.specs.declared.graph.IvfGraph.{IvfGraph};
ghost use Rattle.ivf_graph.specs.Rules.{IsEventAllowed};
ghost use Rattle.page_redo.specs.Fitting.{FitsEach};
ghost use Rattle.ivf_pages.specs.Standing.{Stands};
ghost use Rattle.ivf_pages.specs.Following.{Follows};

use index_sizes::MOST_BLOCKS;

/// A law, and no work. A lasting event that a desk may make after some acts, which led to the index that the pages stand for, follows
/// on these pages and fits each of them that it touches, fresh ones among them (`fits`). On at most 32,768 pages it can be written to a
/// log (`written`).
pub fn law_allowed()
    ensures fits { (p : AnyParams) (pages : List Content) (g : IvfGraph) (acts : List Act) (desk : ℕ) (event : Events) → All IsPage pages
        → Stands p pages g → IsEventAllowed g acts desk event → is_lasting event ≡ true → Follows g event × FitsEach pages p event }
    ensures written { (p : AnyParams) (pages : List Content) (g : IvfGraph) (acts : List Act) (desk : ℕ) (event : Events)
        → length pages ≤ MOST_BLOCKS → All IsPage pages → Stands p pages g → IsEventAllowed g acts desk event → is_lasting event ≡ true
        → IsWritable event }
{}
