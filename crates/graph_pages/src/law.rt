//! What 'pages stand for a graph' means: laws, and no work.

ghost use Rattle.std.specs.Prelude.{◌≡◌, ◌≤◌, ℕ, List, length, All};
ghost use Rattle.vec_names.specs.Params.{IsInRange};
ghost use Rattle.page_bytes.specs.Content.{Content, IsPage};
ghost use Rattle.vec_graph.specs.declared.graph.Graph.{Graph};
ghost use Rattle.vec_graph.specs.Graph.{HasAllSlots};
ghost use Rattle.vec_graph.specs.Places.{IsOnBlocks};
ghost use Rattle.vec_graph.specs.Shaped.{IsShaped};
ghost use Rattle.graph_pages.specs.Standing.{Stands, IsFirstBroken};

use index_sizes::MOST_BLOCKS;
use vec_names::Kind;

/// A law, and no work. Of pages that stand for a graph no block breaks a rule, and they stand for no other graph. Each node of the
/// graph stands on its blocks, its element and its list, and has the slots of its level. The parameters are those of a graph, and
/// of at most 32,768 pages the graph is shaped.
pub fn law_standing()
    ensures whole { (pages : List Content) (g : Graph) (block : ℕ) → Stands pages g → ¬ IsFirstBroken pages block }
    ensures one_graph { (pages : List Content) (g h : Graph) → Stands pages g → Stands pages h → g ≡ h }
    ensures on_blocks { (pages : List Content) (g : Graph) → Stands pages g → IsOnBlocks g }
    ensures in_range { (pages : List Content) (g : Graph) → All IsPage pages → Stands pages g → IsInRange g.params }
    ensures of_kind { (pages : List Content) (g : Graph) → All IsPage pages → Stands pages g → g.params.kind ≡ Kind.Hnsw }
    ensures all_slots { (pages : List Content) (g : Graph) → All IsPage pages → Stands pages g → HasAllSlots g }
    ensures shaped { (pages : List Content) (g : Graph) → length pages ≤ MOST_BLOCKS → All IsPage pages → Stands pages g → IsShaped g }
{}
