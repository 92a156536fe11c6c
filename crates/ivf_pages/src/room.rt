//! That the index tells what is left of the pages which stand for it: laws, and no work.

ghost use Rattle.std.specs.Prelude.{◌≡◌, ◌≤◌, ◌<◌, ◌+◌, ◌↔◌, ℕ, List, All, Some, slice_get, length};
ghost use Rattle.vec_names.specs.declared.params.Params.{Params as AnyParams};
ghost use Rattle.page_bytes.specs.Content.{Content, IsPage, free_of};
ghost use Rattle.ivf_graph.specs.declared.graph.IvfGraph.{IvfGraph};
ghost use Rattle.ivf_graph.specs.Graph.{Row, rows_on, row_need, taken, HasRoom};
ghost use Rattle.ivf_pages.specs.Standing.{lists_end, rows_of, Stands};

use index_sizes::PAGE_ROOM;

/// A law, and no work. The index has rows on just the blocks behind those of list tuples, and these are the rows of the page (`rows`,
/// `behind`). What they take of it is exactly what is not free (`taken`). So the index has room for a row on a block exactly where the
/// page has (`room`).
pub fn law_room()
    ensures rows { (p : AnyParams) (pages : List Content) (g : IvfGraph) (block : ℕ) (page : Content) → Stands p pages g
        → lists_end p < block → slice_get pages block ≡ Some page → rows_on g block ≡ Some (rows_of p (Some page)) }
    ensures behind { (p : AnyParams) (pages : List Content) (g : IvfGraph) (block : ℕ) (rows : List Row) → Stands p pages g
        → rows_on g block ≡ Some rows → (lists_end p < block) × (block < length pages) }
    ensures taken { (p : AnyParams) (pages : List Content) (g : IvfGraph) (block : ℕ) (page : Content) (rows : List Row)
        → All IsPage pages → Stands p pages g → slice_get pages block ≡ Some page → rows_on g block ≡ Some rows
        → taken rows + free_of page ≡ PAGE_ROOM }
    ensures room { (p : AnyParams) (pages : List Content) (g : IvfGraph) (block places : ℕ) (page : Content) (rows : List Row)
        → All IsPage pages → Stands p pages g → slice_get pages block ≡ Some page → rows_on g block ≡ Some rows
        → HasRoom rows places ↔ (row_need places ≤ free_of page) }
{}
