//! That the graph tells what is left of the pages which stand for it: laws, and no work.

ghost use Rattle.std.specs.Prelude.{◌≡◌, ◌≤◌, ◌+◌, ℕ, List, All, Some, None, find, slice_get, length};
ghost use Rattle.std.specs.FinMap.{entries};
ghost use Rattle.vec_names.specs.declared.tid.Tid.{Tid as Place};
ghost use Rattle.page_bytes.specs.Content.{Content, IsPage, free_of};
ghost use Rattle.vec_graph.specs.declared.graph.Graph.{Graph};
ghost use Rattle.vec_graph.specs.declared.place.Place.{Place as Spot};
ghost use Rattle.vec_graph.specs.Places.{room, next_off, is_reusable, reused};
ghost use Rattle.graph_pages.specs.Standing.{Stands};
ghost use Rattle.graph_pages.specs.Choosing.{IsReusableAt, IsLowestReusable};

use index_sizes::MOST_BLOCKS;

/// A law, and no work. The graph's room of a block with nodes is exactly what is free on its page, and the next offset is that behind
/// the page's last item. So a place is refused for want of room just where the page has none.
pub fn law_room()
    ensures room { (pages : List Content) (g : Graph) (block : ℕ) (page : Content) → length pages ≤ MOST_BLOCKS → All IsPage pages
        → Stands pages g → 1 ≤ block → slice_get pages block ≡ Some page → room g block ≡ free_of page }
    ensures next { (pages : List Content) (g : Graph) (block : ℕ) (page : Content) → length pages ≤ MOST_BLOCKS → All IsPage pages
        → Stands pages g → 1 ≤ block → slice_get pages block ≡ Some page → next_off g block ≡ length page.items + 1 }
{}

/// A law, and no work. The places and the version that the graph gives anew on a block are exactly those of the deleted element of this
/// level at the lowest offset of the page, and there are none where no such element stands.
pub fn law_reuse()
    ensures taken { (pages : List Content) (g : Graph) (block level : ℕ) (spot : Spot) → All IsPage pages → Stands pages g
        → reused (find (is_reusable block level) (entries g.nodes)) ≡ Some spot → IsLowestReusable g.params pages block level spot }
    ensures given { (pages : List Content) (g : Graph) (block level : ℕ) (spot : Spot) → All IsPage pages → Stands pages g
        → IsLowestReusable g.params pages block level spot → reused (find (is_reusable block level) (entries g.nodes)) ≡ Some spot }
    ensures none { (pages : List Content) (g : Graph) (block level : ℕ) (at : Place) → All IsPage pages → Stands pages g
        → reused (find (is_reusable block level) (entries g.nodes)) ≡ None → at.block ≡ block → ¬ IsReusableAt g.params pages level at }
{}
