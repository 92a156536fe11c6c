//! A small index on its pages, and pages near it that break a rule: laws, and no work.

ghost use Rattle.std.specs.Prelude.{◌≡◌, ◌++◌, ◌∷◌, [], Bool, List, Some, None, length};
ghost use Rattle.vec_names.specs.declared.heap_id.HeapId.{HeapId};
ghost use Rattle.vec_tuples.specs.Spelling.{centre_with, centre_bytes};
ghost use Rattle.page_redo.specs.Growing.{fresh_page};
ghost use Rattle.ivf_pages.specs.Standing.{IsFirstBroken, Stands};
ghost use Rattle.ivf_pages.specs.Examples.{small_params, meta_page, list_page, row_page, small_pages, small_index};

use page_bytes::PageKind;

/// A law, and no work. The three pages of a small index, with one list and one row, stand for it.
///
/// Pages near them break at one block: at 1 where the list's block is missing, has a tuple too many, names an aim that is not in the
/// chain, or a first block without entries; at 2 where the row's page names itself as the next one; at 3 where a further page of
/// entries is in no chain.
pub fn law_examples()
    ensures stands { (centre : List Bool) (id : HeapId) (bits : List Bool) → length centre ≡ 4 → length bits ≡ 4
        → Stands small_params (small_pages centre id bits) (small_index centre id bits) }
    ensures missing { IsFirstBroken (meta_page ∷ []) 1 }
    ensures too_many { (centre : List Bool) (id : HeapId) (bits : List Bool) → length centre ≡ 4 → length bits ≡ 4
        → IsFirstBroken (meta_page ∷ record (list_page 2 2 centre) {
          items = centre_bytes (centre_with 2 2 centre)
              ∷ centre_bytes (centre_with 2 2 centre) ∷ [];
        } ∷ row_page None id bits ∷ []) 1 }
    ensures other_aim { (centre : List Bool) (id : HeapId) (bits : List Bool) → length centre ≡ 4 → length bits ≡ 4
        → IsFirstBroken (meta_page ∷ list_page 2 3 centre ∷ row_page None id bits ∷ []) 1 }
    ensures no_first { (centre : List Bool) (id : HeapId) (bits : List Bool) → length centre ≡ 4 → length bits ≡ 4
        → IsFirstBroken (meta_page ∷ list_page 1 1 centre ∷ row_page None id bits ∷ []) 1 }
    ensures ring { (centre : List Bool) (id : HeapId) (bits : List Bool) → length centre ≡ 4 → length bits ≡ 4
        → IsFirstBroken (meta_page ∷ list_page 2 2 centre ∷ row_page (Some 2) id bits ∷ []) 2 }
    ensures unnamed { (centre : List Bool) (id : HeapId) (bits : List Bool) → length centre ≡ 4 → length bits ≡ 4
        → IsFirstBroken (small_pages centre id bits ++ fresh_page PageKind.IvfEntries ∷ []) 3 }
{}
